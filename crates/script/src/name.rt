// The calls by name.
ghost use Rattle.std.specs.Prelude.{◌≡◌};
ghost use Rattle.script.specs.Names.{word_of, name_of};

use crate::argument::same;

#[derive(Clone, Copy)]
pub enum Name {
    Open,
    Close,
    Sequence,
    Picture,
    Table,
    Feed,
    Read,
    Explain,
    Help,
}

impl Name {
    const ALL: [Name; 9] = [
        Name::Open,
        Name::Close,
        Name::Sequence,
        Name::Picture,
        Name::Table,
        Name::Feed,
        Name::Read,
        Name::Explain,
        Name::Help,
    ];

    fn word(self) -> &'static [u8]
        ensures { result.now ≡ word_of self }
    {
        match self {
            Name::Open => b"open",
            Name::Close => b"close",
            Name::Sequence => b"sequence",
            Name::Picture => b"picture",
            Name::Table => b"table",
            Name::Feed => b"feed",
            Name::Read => b"read",
            Name::Explain => b"explain",
            Name::Help => b"help",
        }
    }

    // The call that a word names.
    #[tactic(auto, unfolding(crate::specs::Names::name_of))]
    pub fn of(word: &[u8]) -> Option<Name>
        ensures { result ≡ name_of word.now }
    {
        Name::ALL
            .iter()
            .copied()
            .find(|name| same(name.word(), word))
    }

    // How the call is written.
    pub fn form(self) -> &'static str {
        match self {
            Name::Open => "open SLOT",
            Name::Close => "close SLOT",
            Name::Sequence => "sequence SLOT",
            Name::Picture => "picture SLOT",
            Name::Table => "table SLOT NUMBERS",
            Name::Feed => "feed SLOT KIND [size=N] BYTES",
            Name::Read => "read KIND [size=N] BYTES",
            Name::Explain => "explain KIND [size=N] BYTES",
            Name::Help => "help",
        }
    }
}
