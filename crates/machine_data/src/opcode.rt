//! The operations of the loop language.

ghost use Rattle.std.specs.Prelude.{◌≡◌, ◌<◌, find};
ghost use Rattle.machine_data.specs.Opcodes.{word_of, opcode_number, opcode_named, same_word};

/// What a statement of a loop does. The order is that of the words in the documents, and of
/// [`Opcode::number`].
#[derive(Clone, Copy, Debug, PartialEq, Eq)]
pub enum Opcode {
    Load,
    Store,
    Add,
    Sub,
    Mul,
    And,
    Or,
    Xor,
    Min,
    Max,
    Lt,
    Sel,
    Mov,
}

/// How many opcodes there are.
pub const OPCODES: usize = 13;

impl Opcode {
    /// The opcode's word in both texts, as `load`.
    pub fn word(self) -> &'static str
        ensures { result.now ≡ word_of self }
    {
        match self {
            Opcode::Load => "load",
            Opcode::Store => "store",
            Opcode::Add => "add",
            Opcode::Sub => "sub",
            Opcode::Mul => "mul",
            Opcode::And => "and",
            Opcode::Or => "or",
            Opcode::Xor => "xor",
            Opcode::Min => "min",
            Opcode::Max => "max",
            Opcode::Lt => "lt",
            Opcode::Sel => "sel",
            Opcode::Mov => "mov",
        }
    }

    /// The opcode's place among all opcodes, from 0.
    pub fn number(self) -> usize
        ensures value { result ≡ opcode_number self }
        ensures range { result < 13 }
    {
        self as usize
    }

    /// The opcode that has this word, if one has.
    pub fn named(word: &[u8]) -> Option<Opcode>
        ensures { result ≡ opcode_named word.now }
    {
        // By the first letter, so that few words are compared.
        match word {
            [b'a', ..] => among(&[Opcode::Add, Opcode::And], word),
            [b'l', ..] => among(&[Opcode::Load, Opcode::Lt], word),
            [b'm', ..] => among(&[Opcode::Mul, Opcode::Min, Opcode::Max, Opcode::Mov], word),
            [b's', ..] => among(&[Opcode::Store, Opcode::Sub, Opcode::Sel], word),
            _ => among(&[Opcode::Or, Opcode::Xor], word),
        }
    }
}

/// The first of some opcodes that has this word, if one has.
fn among(opcodes: &[Opcode], word: &[u8]) -> Option<Opcode>
    ensures { result ≡ find (λ opcode. same_word (word_of opcode) word.now) opcodes.now }
{
    for opcode in opcodes {
        if opcode.word().as_bytes() == word {
            return Some(*opcode);
        }
    }
    None
}
