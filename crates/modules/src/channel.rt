ghost use Rattle.labels.specs.Channel.{ChannelContents};
ghost use Rattle.std.specs.Prelude.{◌≡◌};
ghost use Rattle.std.specs.String.{string_bytes};

use common::Direction;
use labels::Label;
use std::marker::Model;

/// A channel of a module.
#[derive(Debug, Drop)]
pub struct Channel {
    direction: Direction,
    name: String,
    label: Label,
}

impl Model for Channel {
    ghost use Rattle.labels.specs.Channel.{ChannelContents};
    ghost use Rattle.std.specs.String.{string_bytes};

    ghost Value = { ChannelContents };

    ghost view = { λ c. record {
      direction = c.direction;
      name = string_bytes c.name;
      label = c.label;
    } };
}

impl Channel {
    /// The channel of the given direction and name, which carries what the label guards.
    pub fn new(direction: Direction, name: String, label: Label) -> Channel
        ensures { result
            ≡ record { direction = direction; name = string_bytes name; label = label } }
    {
        Channel {
            direction,
            name,
            label,
        }
    }

    /// Whether numbers are received from the channel or sent on it.
    pub fn direction(&self) -> Direction
        ensures { result ≡ self.now.direction }
    {
        self.direction
    }

    /// The channel's name.
    pub fn name(&self) -> &str
        ensures { result.now ≡ self.now.name }
    {
        self.name.as_str()
    }

    /// The label that guards what the channel carries.
    pub fn label(&self) -> &Label
        ensures { result.now ≡ self.now.label }
    {
        &self.label
    }
}
