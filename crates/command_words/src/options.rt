// The options of `symmetry`, read word by word.

ghost use Rattle.std.specs.Prelude.{◌≡◌};
ghost use Rattle.command_words.specs.Commands.{count_of, no_options, without_time, awaiting_skip, awaiting_take, with_option, with_skip, with_take, with_word, asked};
ghost use Rattle.command_words.specs.OptionOrder.{ComeInAnyOrder};

use crate::command::{Command, UsageFault};

/// What the next word has to be.
#[derive(Clone, Copy, Debug, PartialEq, Eq)]
pub(crate) enum Awaited {
    /// An option.
    AnyOption,

    /// How many operations are left out.
    ValueOfSkip,

    /// How many operations are listed at most.
    ValueOfTake,
}

/// The options of `symmetry` that were read so far, and what the next word has to be.
#[derive(Clone, Copy, Debug, PartialEq, Eq)]
pub(crate) struct Options {
    pub time: bool,
    pub skip: Option<u32>,
    pub take: Option<u32>,
    pub awaited: Awaited,
}

/// The value of 1 to 9 digits.
pub(crate) fn count(word: &[u8]) -> Result<u32, UsageFault>
    ensures { result ≡ count_of word.now }
{
    plain_text::count(word).ok_or(UsageFault::BadValue)
}

impl Options {
    /// No option was read.
    pub(crate) fn none() -> Options
        ensures { result ≡ no_options }
    {
        Options {
            time: true,
            skip: None,
            take: None,
            awaited: Awaited::AnyOption,
        }
    }

    /// With an option, which was not read before.
    fn with_option(self, word: &[u8]) -> Result<Options, UsageFault>
        ensures { result ≡ with_option self word.now }
    {
        if word == b"--no-time-reversal".as_slice() {
            return self.without_time();
        }
        if word == b"--skip".as_slice() {
            return self.awaiting_skip();
        }
        if word == b"--take".as_slice() {
            return self.awaiting_take();
        }
        Err(UsageFault::UnknownOption)
    }

    fn without_time(self) -> Result<Options, UsageFault>
        ensures { result ≡ without_time self }
    {
        if !self.time {
            return Err(UsageFault::RepeatedOption);
        }
        Ok(Options {
            time: false,
            skip: self.skip,
            take: self.take,
            awaited: Awaited::AnyOption,
        })
    }

    fn awaiting_skip(self) -> Result<Options, UsageFault>
        ensures { result ≡ awaiting_skip self }
    {
        match self.skip {
            Some(_) => Err(UsageFault::RepeatedOption),
            None => Ok(Options {
                time: self.time,
                skip: self.skip,
                take: self.take,
                awaited: Awaited::ValueOfSkip,
            }),
        }
    }

    fn awaiting_take(self) -> Result<Options, UsageFault>
        ensures { result ≡ awaiting_take self }
    {
        match self.take {
            Some(_) => Err(UsageFault::RepeatedOption),
            None => Ok(Options {
                time: self.time,
                skip: self.skip,
                take: self.take,
                awaited: Awaited::ValueOfTake,
            }),
        }
    }

    /// With the value of `--skip`.
    fn with_skip(self, word: &[u8]) -> Result<Options, UsageFault>
        ensures { result ≡ with_skip self word.now }
    {
        let value = count(word)?;
        Ok(Options {
            time: self.time,
            skip: Some(value),
            take: self.take,
            awaited: Awaited::AnyOption,
        })
    }

    /// With the value of `--take`.
    fn with_take(self, word: &[u8]) -> Result<Options, UsageFault>
        ensures { result ≡ with_take self word.now }
    {
        let value = count(word)?;
        Ok(Options {
            time: self.time,
            skip: self.skip,
            take: Some(value),
            awaited: Awaited::AnyOption,
        })
    }

    /// With one more word.
    pub(crate) fn with_word(self, word: &[u8]) -> Result<Options, UsageFault>
        ensures { result ≡ with_word self word.now }
    {
        match self.awaited {
            Awaited::AnyOption => self.with_option(word),
            Awaited::ValueOfSkip => self.with_skip(word),
            Awaited::ValueOfTake => self.with_take(word),
        }
    }

    /// What the options ask for, where no word is left.
    pub(crate) fn command(self) -> Result<Command, UsageFault>
        ensures { result ≡ asked self }
    {
        if self.awaited != Awaited::AnyOption {
            return Err(UsageFault::MissingValue);
        }
        let skip = match self.skip {
            Some(count) => count,
            None => 0,
        };
        Ok(Command::Symmetry {
            time: self.time,
            skip,
            take: self.take,
        })
    }
}

/// In which order the options come does not matter.
///
/// Two neighbours, each with its value, may be exchanged, behind any options and before any words.
pub fn options_come_in_any_order()
    ensures { ComeInAnyOrder }
{}
