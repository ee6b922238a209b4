ghost use Rattle.std.specs.Prelude.{◌≡◌, ◌≤◌, drop, length, IfOk};
ghost use Rattle.command_words.specs.Commands.{command, command_name, behind_name, alone, argument, filled, filling, from_seed, no_options, one_more, options, seeded};
ghost use Rattle.command_words.specs.Fillings.{HasSmallMoment};

use crate::filling::{Filling, component};
use crate::options::{Options, count};
use crate::words::Words;

/// What the words ask for.
#[derive(Clone, Copy, Debug, PartialEq, Eq)]
pub enum Command {
    /// The symmetry operations of a cell: those that reverse time only where `time` is set; of the list the part behind its
    /// first `skip` operations, and of that at most `take` where it is given.
    Symmetry {
        time: bool,
        skip: u32,
        take: Option<u32>,
    },

    /// The primitive cell, in a Niggli-reduced basis.
    Primitive,

    /// The magnetic type, the operations of the primitive cell, and the orbits of the atoms.
    Dataset,

    /// The orbits of the atoms, and their site-symmetry groups.
    Orbits,

    /// The operations of the group of a Hall symbol, which is the one further word.
    Hall,

    /// Which groups of a table the crystal has, with the maps; the table's name is the one further word.
    Identify,

    /// The crystal in the basis of the first symbol of a table that has a map; the table's name is the one further word.
    Standard,

    /// All maps onto the crystal of another cell file, whose name is the one further word.
    Compare,

    /// Which moments the site of each atom allows.
    Moments,

    /// The primitive cell with this moment at an atom, and with those to which the symmetry operations carry it.
    Fill(Filling),

    /// The summary of the cell that this seed generates.
    Selfrun(u32),
}

/// Why the words ask for nothing: the first fault from the left.
#[derive(Clone, Copy, Debug, PartialEq, Eq)]
pub enum UsageFault {
    /// There is no word.
    NoCommand,

    /// The first word is the name of no command.
    UnknownCommand,

    /// A word in the place of an option is none of the options.
    UnknownOption,

    /// The option was given before.
    RepeatedOption,

    /// The last word is an option that needs a value.
    MissingValue,

    /// The value of an option, the seed or the number of the atom does not have 1 to 9 digits and nothing else, or a component
    /// of the moment has more than those behind a sign.
    BadValue,

    /// The symbol, the name of the table or of the other cell, the seed, or the atom or its moment is missing.
    MissingWord,

    /// There are words behind those that the command takes.
    ExtraWord,
}

/// What the words behind `symmetry` ask for, or their first fault from the left.
fn read_options(words: &Words) -> Result<Command, UsageFault>
    ensures { result ≡ options no_options (drop 1 words.now) }
{
    let mut read = Options::none();
    for i in 1..words.count() {
        read = read.with_word(words.word(i))?;
    }
    read.command()
}

/// The command, behind whose name no word may stand.
fn alone(command: Command, words: &Words) -> Result<Command, UsageFault>
    ensures { result ≡ alone command (drop 1 words.now) }
{
    if words.count() > 1 {
        return Err(UsageFault::ExtraWord);
    }
    Ok(command)
}

/// The word behind the command's name; no bytes where there is none.
pub fn argument(words: &Words) -> &[u8]
    ensures { result.now ≡ argument words.now }
{
    if words.count() < 2 {
        return &[];
    }
    words.word(1)
}

/// What is wanted, where one further word stands behind the command's name.
fn one_more(wanted: Result<Command, UsageFault>, words: &Words) -> Result<Command, UsageFault>
    ensures { result ≡ one_more wanted (drop 1 words.now) }
{
    if words.count() < 2 {
        return Err(UsageFault::MissingWord);
    }
    if words.count() > 2 {
        return Err(UsageFault::ExtraWord);
    }
    wanted
}

/// The run from a seed of 1 to 9 digits.
fn seeded(word: &[u8]) -> Result<Command, UsageFault>
    ensures { result ≡ seeded word.now }
{
    let seed = count(word)?;
    Ok(Command::Selfrun(seed))
}

/// The run from the seed that is the one further word.
fn from_seed(words: &Words) -> Result<Command, UsageFault>
    ensures { result ≡ from_seed (drop 1 words.now) }
{
    let run = seeded(argument(words));
    one_more(run, words)
}

/// The moment for an atom that the four words behind the command's name give.
fn filling(words: &Words) -> Result<Command, UsageFault>
    requires { 5 ≤ length words.now }
    ensures { result ≡ filling (drop 1 words.now) }
{
    let atom = count(words.word(1))?;
    let a = component(words.word(2))?;
    let b = component(words.word(3))?;
    let c = component(words.word(4))?;
    Ok(Command::Fill(Filling { atom, a, b, c }))
}

/// The moment for an atom, where four words stand behind the command's name.
fn filled(words: &Words) -> Result<Command, UsageFault>
    ensures { result ≡ filled (drop 1 words.now) }
{
    if words.count() < 5 {
        return Err(UsageFault::MissingWord);
    }
    if words.count() > 5 {
        return Err(UsageFault::ExtraWord);
    }
    filling(words)
}

/// The command that a word names.
#[derive(Clone, Copy)]
enum CommandName {
    Symmetry,
    Primitive,
    Dataset,
    Orbits,
    Hall,
    Identify,
    Standard,
    Compare,
    Moments,
    Fill,
    Selfrun,
}

/// The command that the word names, if there is one.
fn command_name(word: &[u8]) -> Option<CommandName>
    ensures { result ≡ command_name word.now }
{
    if word == b"symmetry".as_slice() {
        return Some(CommandName::Symmetry);
    }
    if word == b"primitive".as_slice() {
        return Some(CommandName::Primitive);
    }
    if word == b"dataset".as_slice() {
        return Some(CommandName::Dataset);
    }
    if word == b"orbits".as_slice() {
        return Some(CommandName::Orbits);
    }
    if word == b"hall".as_slice() {
        return Some(CommandName::Hall);
    }
    if word == b"identify".as_slice() {
        return Some(CommandName::Identify);
    }
    if word == b"standard".as_slice() {
        return Some(CommandName::Standard);
    }
    if word == b"compare".as_slice() {
        return Some(CommandName::Compare);
    }
    if word == b"moments".as_slice() {
        return Some(CommandName::Moments);
    }
    if word == b"fill".as_slice() {
        return Some(CommandName::Fill);
    }
    if word == b"selfrun".as_slice() {
        return Some(CommandName::Selfrun);
    }
    None
}

/// What the words behind the name ask for.
fn behind_name(name: CommandName, words: &Words) -> Result<Command, UsageFault>
    ensures { result ≡ behind_name name (drop 1 words.now) }
{
    match name {
        CommandName::Symmetry => read_options(words),
        CommandName::Primitive => alone(Command::Primitive, words),
        CommandName::Dataset => alone(Command::Dataset, words),
        CommandName::Orbits => alone(Command::Orbits, words),
        CommandName::Hall => one_more(Ok(Command::Hall), words),
        CommandName::Identify => one_more(Ok(Command::Identify), words),
        CommandName::Standard => one_more(Ok(Command::Standard), words),
        CommandName::Compare => one_more(Ok(Command::Compare), words),
        CommandName::Moments => alone(Command::Moments, words),
        CommandName::Fill => filled(words),
        CommandName::Selfrun => from_seed(words),
    }
}

/// What the words ask for, or their first fault from the left.
fn asked(words: &Words) -> Result<Command, UsageFault>
    ensures { result ≡ command words.now }
{
    if words.count() == 0 {
        return Err(UsageFault::NoCommand);
    }
    match command_name(words.word(0)) {
        Some(name) => behind_name(name, words),
        None => Err(UsageFault::UnknownCommand),
    }
}

/// What the words ask for, or their first fault from the left. It takes no memory.
///
/// The components of a moment have up to 9 digits.
pub fn read_words(words: &Words) -> Result<Command, UsageFault>
    ensures value { result ≡ command words.now }
    ensures small { IfOk result HasSmallMoment }
{
    asked(words)
}
