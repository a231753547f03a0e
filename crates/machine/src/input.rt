ghost use Rattle.std.specs.Prelude.{◌<◌, ◌≡◌, [], drop, length, slice_get, slice_index_or, slice_set};

use std::marker::Model;

/// What is left of a channel's numbers.
#[derive(Debug, Drop)]
pub struct Input {
    // The next number is the last one.
    numbers: Vec<i32>,
}

impl Model for Input {
    ghost use Rattle.std.specs.Prelude.{List, reverse, ℤ};

    ghost Value = { List ℤ };

    ghost view = { λ input. reverse input.numbers.items };
}

impl Input {
    /// All of these numbers.
    pub fn of(numbers: Vec<i32>) -> Input
        ensures { result ≡ numbers.items }
    {
        let mut numbers = numbers;
        numbers.reverse();
        Input { numbers }
    }

    /// The next number, which is not taken yet.
    pub fn next(&self) -> Option<i32>
        ensures { result ≡ slice_get self.now 0 }
    {
        self.numbers.last().copied()
    }

    /// Takes the next number, if there is one.
    pub fn take(&mut self) -> Option<i32>
        ensures next { result ≡ slice_get self.old 0 }
        ensures rest { self.new ≡ drop 1 self.old }
    {
        self.numbers.pop()
    }

    /// Takes the next number off.
    pub fn advance(&mut self)
        ensures { self.new ≡ drop 1 self.old }
    {
        let _ = self.numbers.pop();
    }
}

/// What is left of the numbers of all channels.
#[derive(Debug, Drop)]
pub struct RemainingInputs {
    inputs: Vec<Input>,
}

impl Model for RemainingInputs {
    ghost use Rattle.std.specs.Prelude.{List, ℤ};

    ghost Value = { List (List ℤ) };

    ghost view = { λ inputs. inputs.inputs.items };
}

impl RemainingInputs {
    /// The inputs in the order of their channels.
    pub fn of(inputs: Vec<Input>) -> RemainingInputs
        ensures { result ≡ inputs.items }
    {
        RemainingInputs { inputs }
    }

    /// The next number of a channel, which is not taken yet.
    pub fn next(&self, channel: u32) -> Option<i32>
        requires { channel < length self.now }
        ensures { result ≡ slice_get (slice_index_or self.now channel []) 0 }
    {
        self.inputs[channel as usize].next()
    }

    /// Takes the next number of a channel, if there is one.
    #[inline(always)]
    pub fn take(&mut self, channel: u32) -> Option<i32>
        requires { channel < length self.old }
        ensures next { result ≡ slice_get (slice_index_or self.old channel []) 0 }
        ensures rest { self.new ≡ slice_set self.old channel
            (drop 1 (slice_index_or self.old channel [])) }
    {
        self.inputs[channel as usize].take()
    }

    /// Takes the next number of a channel off.
    pub fn advance(&mut self, channel: u32)
        requires { channel < length self.old }
        ensures { self.new ≡ slice_set self.old channel
            (drop 1 (slice_index_or self.old channel [])) }
    {
        let input = &mut self.inputs[channel as usize];
        input.advance();
    }
}
