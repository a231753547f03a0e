//! Channels and globals.

ghost use Rattle.resolved.specs.WellFormed.{same_base};
ghost use Rattle.types.specs.declared.fault.TypeRefusalKind.TheVariants.{WrongType};
ghost use Rattle.types.specs.Finding.{give_if};
ghost use Rattle.types.specs.Resolution as spec;
ghost use Rattle.types.specs.Resolution.{channel_finding, first_finding, global_finding};
ghost use Rattle.types.specs.VariableEntries.{HasMoreLabels, IsInside};
ghost use Rattle.types.specs.Views.{Resolves, first_view, item_scope};
ghost use Rattle.resolved.specs.ProgramOf.{channel_entry, global_entry};
ghost use Rattle.std.specs.Prelude.{IfOk, None, OnOk, length, ◌<◌, ◌≡◌};
ghost use Rattle.syntax.specs.Limits.{most_nodes};
ghost use Rattle.syntax.specs.Tree.{channel_tree, global_tree, global_value_tree};
ghost use Rattle.syntax.specs.Written.{Anywhere, IsInteger, IsNameWithin, IsWrittenGlobalValue};
ghost use Rattle.common.specs.declared.limits.TheConstants.{MAX_TEXT};

use crate::fault::{TypeFault, TypeRefusal, TypeRefusalKind};
use crate::label::ItemContext;
use crate::operator::is_same;
use crate::statement::resolve_size;
use crate::variables::DeclaredVariables;
use common::{BaseType, OrNoMemory, Value};
use resolved::tables::{Channel, GlobalVariable};
use syntax::{Constant, GlobalValue};

/// Resolves the declaration of a channel. Precondition: there are fewer labels than a program may have nodes.
///
/// # Errors
///
/// 301, 303, 305 and 403 in its label; or out of memory.
#[tactic(auto, unfolding(crate::specs::Resolution::channel_finding))]
pub fn resolve_channel(
    context: &ItemContext<'_>,
    variables: &mut DeclaredVariables,
    written: &syntax::Channel<'_>,
) -> Result<Channel, TypeFault>
    requires room { length variables.old.labels < most_nodes }
    ensures made { Resolves (λ channel. channel_entry variables.new.labels channel) result
        (channel_finding (item_scope context.now variables.old) (channel_tree written.now)) }
    ensures inside { IfOk result (λ channel. IsInside variables.new.labels channel.label) }
    ensures more { OnOk result (HasMoreLabels 1 variables.old variables.new) }
{
    let label = context.add_label(variables, &written.label)?;
    Ok(Channel {
        direction: written.direction,
        name: String::from_str(context.alloc, written.name.text)?,
        label,
    })
}

/// The number that is written so.
fn signed_of(negative: bool, value: u32) -> i32
    requires small { IsInteger value }
    ensures { result ≡ spec.signed negative value }
{
    let number = value as i32;
    if negative { -number } else { number }
}

/// The first value of a scalar, which has to be of its type.
fn require_type(
    given: BaseType,
    base: BaseType,
    value: Value,
    at: usize,
) -> Result<(Option<u32>, Value), TypeFault>
    ensures { Resolves first_view result
        (give_if (same_base given base) (None, value) WrongType at) }
{
    if is_same(given, base) {
        Ok((None, value))
    } else {
        Err(OrNoMemory::Refused(TypeRefusal {
            kind: TypeRefusalKind::WrongType,
            at,
        }))
    }
}

/// The length of a global that is an array, and what its cells hold at first.
#[tactic(auto, unfolding(crate::specs::Resolution::first_finding))]
fn resolve_first_value(
    base: BaseType,
    value: &GlobalValue,
) -> Result<(Option<u32>, Value), TypeFault>
    requires small { IsWrittenGlobalValue Anywhere (IsNameWithin MAX_TEXT) IsInteger
        (global_value_tree value.now) }
    ensures { Resolves first_view result (first_finding base (global_value_tree value.now)) }
{
    match value {
        GlobalValue::Scalar(
            Constant::Integer {
                at,
                negative,
                value,
            },
        ) => require_type(
            BaseType::Int,
            base,
            Value::Int(signed_of(*negative, *value)),
            *at,
        ),
        GlobalValue::Scalar(Constant::Truth { at, value }) => {
            require_type(BaseType::Boolean, base, Value::Bool(*value), *at)
        }
        GlobalValue::Array(size) => Ok((Some(resolve_size(*size)?), Value::zero_of(base))),
    }
}

/// Resolves the declaration of a global. Preconditions: its integers are at most 2147483647, and there are fewer labels than a
/// program may have nodes.
///
/// # Errors
///
/// 301, 303, 305 and 403 in its label, 401 where its first value has another type than the global,
/// 703 where it is an array of another length than 1 to 65,536; or out of memory.
#[tactic(auto, unfolding(crate::specs::Resolution::global_finding))]
pub fn resolve_global(
    context: &ItemContext<'_>,
    variables: &mut DeclaredVariables,
    written: &syntax::GlobalVariable<'_>,
) -> Result<GlobalVariable, TypeFault>
    requires small { IsWrittenGlobalValue Anywhere (IsNameWithin MAX_TEXT) IsInteger
        (global_value_tree written.now.value) }
    requires room { length variables.old.labels < most_nodes }
    ensures made { Resolves (λ global. global_entry variables.new.labels global) result
        (global_finding (item_scope context.now variables.old) (global_tree written.now)) }
    ensures inside { IfOk result (λ global. IsInside variables.new.labels global.label) }
    ensures more { OnOk result (HasMoreLabels 1 variables.old variables.new) }
{
    let label = context.add_label(variables, &written.label)?;
    let base = written.base;
    let (size, first) = resolve_first_value(base, &written.value)?;
    Ok(GlobalVariable {
        name: String::from_str(context.alloc, written.name.text)?,
        base,
        size,
        label,
        first,
    })
}
