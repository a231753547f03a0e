//! What a refusal is reported by.

ghost use Rattle.common.specs.Message.{MessageContents};
ghost use Rattle.std.specs.Prelude.{◌≡◌};

/// The number and the words that a refusal is reported by.
#[derive(Clone, Copy, Debug, PartialEq, Eq)]
pub struct Message {
    pub number: u32,
    pub words: &'static str,
}

impl Message {
    /// The message of a number and words.
    pub fn new(number: u32, words: &'static str) -> Message
        ensures number { result.number ≡ number }
        ensures words { result.words.now ≡ words.now }
    {
        Message { number, words }
    }
}

/// What is reported by a message, as each kind of refusal is.
pub trait Reported {
    /// The contents of the message.
    ghost contents: { Self → MessageContents };

    /// The number and the words that it is reported by.
    fn message(&self) -> Message
        ensures number { result.number ≡ (contents self.now).number }
        ensures words { result.words.now ≡ (contents self.now).words };

    /// The number that it is reported by.
    final fn number(&self) -> u32
        ensures { result ≡ (contents self.now).number }
    {
        self.message().number
    }

    /// The words that it is reported by.
    final fn words(&self) -> &'static str
        ensures { result.now ≡ (contents self.now).words }
    {
        self.message().words
    }
}
