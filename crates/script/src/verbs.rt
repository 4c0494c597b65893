// The first words of lines.
ghost use Rattle.std.specs.Prelude.{◌≡◌};
ghost use Rattle.script.specs.Verbs.{verb_of, operand_count};

// What a line is about.
#[derive(Clone, Copy)]
pub(crate) enum Verb {
    Memory,
    Bytes,
    Held,
    Board,
    Unit,
    Load,
    Start,
    Raise,
    Run,
    Put,
    Open,
    Entry,
    Close,
    Cell,
    Register,
    Status,
}

// What a line that begins with this word is about.
pub(crate) fn verb_of(word: &[u8]) -> Option<Verb>
    ensures { result ≡ verb_of word.now }
{
    match word {
        b"memory" => Some(Verb::Memory),
        b"bytes" => Some(Verb::Bytes),
        b"held" => Some(Verb::Held),
        b"board" => Some(Verb::Board),
        b"unit" => Some(Verb::Unit),
        b"load" => Some(Verb::Load),
        b"start" => Some(Verb::Start),
        b"raise" => Some(Verb::Raise),
        b"run" => Some(Verb::Run),
        b"put" => Some(Verb::Put),
        b"open" => Some(Verb::Open),
        b"entry" => Some(Verb::Entry),
        b"close" => Some(Verb::Close),
        b"cell" => Some(Verb::Cell),
        b"register" => Some(Verb::Register),
        b"status" => Some(Verb::Status),
        _ => None,
    }
}

impl Verb {
    // How many words follow the first.
    pub(crate) fn operand_count(self) -> usize
        ensures { result ≡ operand_count self }
    {
        match self {
            Verb::Start | Verb::Status => 0,
            Verb::Memory | Verb::Board | Verb::Unit | Verb::Raise | Verb::Run => 1,
            Verb::Close | Verb::Cell | Verb::Register => 1,
            Verb::Bytes | Verb::Held | Verb::Load | Verb::Put => 2,
            Verb::Entry => 3,
            Verb::Open => 4,
        }
    }
}
