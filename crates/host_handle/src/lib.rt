//! A host as a handle of two words, which a program in another language keeps between its calls.
#![tactic(auto)]

ghost use Rattle.host.specs.Values.{HostRuns};
ghost use Rattle.host.specs.contracts.hosts.Host as host_type;
ghost use Rattle.host_handle.specs.Owned.{coded_option, is_held, slot_owns};
ghost use Rattle.std.specs.Option.{option_map};
ghost use Rattle.std.specs.Prelude.{[], ◌≡◌, ℕ, Bool, List, None, Option, Some, true};

use boxes::BoxParts;
use host::Host;
use std::alloc::Global;
use std::marker::Model;
use std::ptr::null_mut;

/// The slot of a host: empty, or a pointer to one, which it owns.
///
/// Where a slot with a host is dropped, the host stays on the heap: [`Handle::take`] takes it out.
#[repr(C)]
#[derive(Drop)]
pub struct HostSlot {
    // A pointer to bytes, since a program in C knows no host.
    pointer: *mut u8,
    /// The host that it holds.
    pub ghost held: { Option HostRuns } by { coded_option host_type.the_row.coded },
}

impl Model for HostSlot {
    ghost use Rattle.host.specs.Values.{HostRuns};
    ghost use Rattle.host.specs.contracts.hosts.Host as host_type;
    ghost use Rattle.host_handle.specs.Owned.{coded_option, slot_owns};
    ghost use Rattle.std.specs.Prelude.{ℕ, List, Option};

    ghost also_owns = { λ slot. slot_owns slot.pointer slot.held };
}

impl HostSlot {
    /// A slot that holds no host.
    pub fn empty() -> HostSlot
        ensures { result.held ≡ None }
    {
        HostSlot {
            pointer: null_mut(),
        }
    }

    /// A slot that holds the host of a box.
    pub fn of(parts: BoxParts<Host, Global>) -> HostSlot
        ensures { result.held ≡ Some parts.value }
    {
        let BoxParts { pointer, alloc: _ } = parts;
        HostSlot {
            pointer: pointer as *mut u8,
        }
    }

    /// The box of the host that the slot holds.
    pub fn into_parts(self, alloc: Global) -> BoxParts<Host, Global>
        requires { is_held self.held ≡ true }
        ensures { self.held ≡ Some result.value }
    {
        let HostSlot { pointer } = self;
        BoxParts {
            pointer: pointer as *mut Host,
            alloc,
        }
    }
}

// A host may go to another thread, and the heap takes it back there.
unsafe impl Send for HostSlot {}

/// What another program keeps of a host. Zeros are a handle without a host.
#[repr(C)]
#[derive(Drop)]
pub struct Handle {
    /// The slot of the host.
    pub slot: HostSlot,
    /// Whether it holds one.
    pub full: bool,
    ghost tied: { is_held slot.held ≡ full },
}

impl Handle {
    /// A handle without a host.
    pub fn closed() -> Handle
        ensures { result.slot.held ≡ None }
    {
        Handle {
            slot: HostSlot::empty(),
            full: false,
        }
    }

    /// Takes the host out, if there is one.
    pub fn take(&mut self, alloc: Global) -> Option<Box<Host>>
        ensures taken { option_map (λ boxed. boxed.value) result ≡ self.old.slot.held }
        ensures left { self.new.slot.held ≡ None }
    {
        let Handle { slot, full } = std::mem::replace(self, Handle::closed());
        if full {
            Some(slot.into_parts(alloc).into_box())
        } else {
            None
        }
    }

    /// Puts a host in. One that the handle holds already would stay on the heap.
    pub fn put(&mut self, host: Box<Host>)
        ensures { self.new.slot.held ≡ Some host.value }
    {
        *self = Handle {
            slot: HostSlot::of(BoxParts::of(host)),
            full: true,
        };
    }
}
