// The commands of a script.
ghost use Rattle.std.specs.Prelude.{◌≡◌};
ghost use Rattle.script.specs.Commands.{word_of, command_of};

use crate::protocol::Word;

#[derive(Clone, Copy, PartialEq, Eq, Debug)]
pub enum Command {
    // `digest BYTES` answers the 32 bytes of their digest
    Digest,
    // `group NAME` chooses the group for the lines below
    Group,
    // `decode CODE` tells whether bytes are the code of an element
    Decode,
    // `map BYTES` answers the code of the element that 32 bytes map to
    Map,
    // `base SCALAR` answers the code of the scalar's base multiple
    Base,
    // `input EPOCH NONCE CONTEXT PK` answers the 100 bytes of a token input
    Input,
    // `direct KEY INPUT` answers the 32 bytes of the input's authenticator
    Direct,
    // `book KIND LENGTH` makes a lone book over so many bytes, and answers its capacity
    Book,
    // `mark EPOCH NONCE` adds a pair to it
    Mark,
    // `has EPOCH NONCE` tells whether a pair is in it
    Has,
    // `drop EPOCH` takes out the pairs of an epoch, and answers how many they were
    Drop,
    // `size` answers how many pairs are in it
    Size,
    // `clear` takes every pair out
    Clear,
    // `image` answers the bytes that it lies in
    Image,
    // a word of the client or of a station
    Protocol(Word),
}

// All the commands.
const COMMANDS: [Command; 25] = [
    Command::Digest,
    Command::Group,
    Command::Decode,
    Command::Map,
    Command::Base,
    Command::Input,
    Command::Direct,
    Command::Book,
    Command::Mark,
    Command::Has,
    Command::Drop,
    Command::Size,
    Command::Clear,
    Command::Image,
    Command::Protocol(Word::Scratch),
    Command::Protocol(Word::Outlet),
    Command::Protocol(Word::Blind),
    Command::Protocol(Word::Finish),
    Command::Protocol(Word::Abandon),
    Command::Protocol(Word::Station),
    Command::Protocol(Word::Open),
    Command::Protocol(Word::Close),
    Command::Protocol(Word::Issue),
    Command::Protocol(Word::Redeem),
    Command::Protocol(Word::Count),
];

impl Command {
    // The command that a word calls.
    #[tactic(auto, unfolding(crate::specs::Commands::command_of))]
    pub fn of(word: &[u8]) -> Option<Command>
        ensures { result ≡ command_of word.now }
    {
        COMMANDS
            .iter()
            .copied()
            .find(|command| word == command.word().as_bytes())
    }

    // The word that calls the command.
    pub fn word(self) -> &'static str
        ensures { result.now ≡ word_of self }
    {
        match self {
            Command::Digest => "digest",
            Command::Group => "group",
            Command::Decode => "decode",
            Command::Map => "map",
            Command::Base => "base",
            Command::Input => "input",
            Command::Direct => "direct",
            Command::Book => "book",
            Command::Mark => "mark",
            Command::Has => "has",
            Command::Drop => "drop",
            Command::Size => "size",
            Command::Clear => "clear",
            Command::Image => "image",
            Command::Protocol(word) => word.text(),
        }
    }
}
