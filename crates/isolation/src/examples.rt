//! The definitions are not empty: programs that the rules accept, one that they refuse, and what two runs show.

ghost use Rattle.isolation.specs.Examples.{bob, bob_sees, comes, for_alice, relay, sends, two_principals, waiting};
ghost use Rattle.labels.specs.Isolated.{WorldsAgree};
ghost use Rattle.resolved.specs.Isolated.{Isolated};
ghost use Rattle.resolved.specs.Labelled.{Labelled, channel_label, exit_faults};
ghost use Rattle.resolved.specs.Meaning.{sent_by};
ghost use Rattle.std.specs.Prelude.{[], ℕ, pos, ◌≡◌};

/// A program that sends what it received from an input of Alice to an output of Alice is labelled, and sends it. With the empty
/// label on that output in place of Alice's it has no labelling, and is not isolated.
pub fn a_label_decides()
    ensures faultless { exit_faults (relay for_alice) ≡ [] }
    ensures labelled { Labelled (relay for_alice) }
    ensures sent { sent_by (relay for_alice) (comes (pos 5)) 1 ≡ sends (pos 5) }
    ensures refused { Labelled (relay []) → ⊥ }
    ensures leaks { Isolated (relay []) → ⊥ }
{}

/// A labelled program whose runs on two worlds that agree for Bob show him lists of different lengths, with whatever fuel: a
/// loop that waits for ever on a number of Alice keeps it from sending.
pub fn lists_may_differ_in_length()
    ensures faultless { exit_faults waiting ≡ [] }
    ensures labelled { Labelled waiting }
    ensures agree { WorldsAgree two_principals (channel_label waiting) waiting.channels bob
        (comes (pos 0)) (comes (pos 1)) }
    ensures all { (k : ℕ) → bob_sees (comes (pos 0)) k ≡ sends (pos 1) }
    ensures nothing { (k : ℕ) → bob_sees (comes (pos 1)) k ≡ [] }
{}
