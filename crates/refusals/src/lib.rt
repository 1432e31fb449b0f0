// The refusals of the documents, each with its number: what a function answers that does not take what it is given.
#![tactic(auto)]

ghost use Rattle.std.specs.Prelude.{◌≡◌};
ghost use Rattle.refusals.specs.Numbers.{number_of};

// A refusal, in the order of the numbers (specs/Numbers.antt).
#[derive(Clone, Copy, PartialEq, Eq)]
pub enum Refusal {
    // A sample is not 54 bytes.
    SampleLength = 1,
    // A byte of a sample is over 1.
    ByteOverOne,
    // Nothing has elapsed since the last sample.
    NoneElapsed,
    // More has elapsed than a step may take.
    LimitElapsed,
    // A row breaks the form of a trace.
    Form,
    // A row is over 512 bytes.
    RowLength,
    // A row's label is not the one due.
    Label,
    // A lent buffer has not the room, or not the length.
    Room,
    // A dump is none that is written.
    Dump,
    // An image has the length of no form, or an item out of its range.
    Range,
    // An image breaks a rule.
    Rule,
    // An image cannot go back to the old form.
    OldForm,
    // A float is no rate, or no position.
    Fraction,
}

impl Refusal {
    // Its number. (No From: theorems and docs/CONTRACTS.md name this one.)
    pub fn number(self) -> u8
        ensures { result ≡ number_of self }
    {
        self as u8
    }
}
