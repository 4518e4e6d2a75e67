ghost use Rattle.std.specs.Prelude.{◌≡◌, ℕ, ◌<◌, ◌↔◌, [], ◌∷◌, IsSome, IfSome, Some, find};
ghost use Rattle.std.specs.Str.{bytes_eq};
ghost use Rattle.ga_word.specs.Op.{code_of, ends_word, fits_slot3, name_of, opcodes, takes_dest};

use std::fmt;

/// The 32 opcodes of the F18A, in the order of their codes and under the names that its reference
/// gives them.
#[derive(Clone, Copy, Debug, Default, PartialEq, Eq)]
pub enum Op {
    /// `;` sets P to R and pops R.
    Return,
    /// `ex` exchanges P and R.
    Execute,
    /// `jump` sets P by its destination.
    Jump,
    /// `call` pushes P on R and sets P by its destination.
    Call,
    /// `unext` runs its word again while R counts down.
    Micronext,
    /// `next` sets P by its destination while R counts down.
    Next,
    /// `if` sets P by its destination if T is 0.
    If,
    /// `-if` sets P by its destination if bit 17 of T is 0.
    MinusIf,
    /// `@p` pushes the word at P, which advances.
    FetchP,
    /// `@+` pushes the word at A, which advances.
    FetchPlus,
    /// `@b` pushes the word at B.
    FetchB,
    /// `@` pushes the word at A.
    Fetch,
    /// `!p` writes T at P, which advances.
    StoreP,
    /// `!+` writes T at A, which advances.
    StorePlus,
    /// `!b` writes T at B.
    StoreB,
    /// `!` writes T at A.
    Store,
    /// `+*` does one step of a multiplication.
    MultiplyStep,
    /// `2*` doubles T.
    TwoStar,
    /// `2/` halves T and keeps its bit 17.
    TwoSlash,
    /// `-` turns each bit of T over.
    Not,
    /// `+` adds S to T.
    Plus,
    /// `and` keeps the bits that S and T share.
    And,
    /// `or` keeps the bits in which S and T differ.
    Or,
    /// `drop` pops T.
    Drop,
    /// `dup` pushes T.
    Dup,
    /// `pop` moves the top of the return stack to T.
    Pop,
    /// `over` pushes S.
    Over,
    /// `a` pushes A.
    A,
    /// `.` does nothing, and fills slots.
    #[default]
    Nop,
    /// `push` moves T to the return stack.
    Push,
    /// `b!` moves T to B.
    BStore,
    /// `a!` moves T to A.
    AStore,
}

impl Op {
    /// The opcode with this code, or `None` from 20 (hexadecimal) up.
    pub fn from_code(code: u8) -> Option<Self>
        ensures found { IsSome result ↔ (code < 32) }
        ensures value { IfSome result (λ op. code_of op ≡ code) }
    {
        let op = match code {
            0x00 => Op::Return,
            0x01 => Op::Execute,
            0x02 => Op::Jump,
            0x03 => Op::Call,
            0x04 => Op::Micronext,
            0x05 => Op::Next,
            0x06 => Op::If,
            0x07 => Op::MinusIf,
            0x08 => Op::FetchP,
            0x09 => Op::FetchPlus,
            0x0A => Op::FetchB,
            0x0B => Op::Fetch,
            0x0C => Op::StoreP,
            0x0D => Op::StorePlus,
            0x0E => Op::StoreB,
            0x0F => Op::Store,
            0x10 => Op::MultiplyStep,
            0x11 => Op::TwoStar,
            0x12 => Op::TwoSlash,
            0x13 => Op::Not,
            0x14 => Op::Plus,
            0x15 => Op::And,
            0x16 => Op::Or,
            0x17 => Op::Drop,
            0x18 => Op::Dup,
            0x19 => Op::Pop,
            0x1A => Op::Over,
            0x1B => Op::A,
            0x1C => Op::Nop,
            0x1D => Op::Push,
            0x1E => Op::BStore,
            0x1F => Op::AStore,
            _ => return None,
        };
        Some(op)
    }

    /// The code of the opcode, five bits.
    pub fn code(self) -> u8
        ensures { result ≡ code_of self }
    {
        self as u8
    }

    /// The opcode's name in source text.
    pub fn name(self) -> &'static str
        ensures { result.now ≡ name_of self }
    {
        match self {
            Op::Return => ";",
            Op::Execute => "ex",
            Op::Jump => "jump",
            Op::Call => "call",
            Op::Micronext => "unext",
            Op::Next => "next",
            Op::If => "if",
            Op::MinusIf => "-if",
            Op::FetchP => "@p",
            Op::FetchPlus => "@+",
            Op::FetchB => "@b",
            Op::Fetch => "@",
            Op::StoreP => "!p",
            Op::StorePlus => "!+",
            Op::StoreB => "!b",
            Op::Store => "!",
            Op::MultiplyStep => "+*",
            Op::TwoStar => "2*",
            Op::TwoSlash => "2/",
            Op::Not => "-",
            Op::Plus => "+",
            Op::And => "and",
            Op::Or => "or",
            Op::Drop => "drop",
            Op::Dup => "dup",
            Op::Pop => "pop",
            Op::Over => "over",
            Op::A => "a",
            Op::Nop => ".",
            Op::Push => "push",
            Op::BStore => "b!",
            Op::AStore => "a!",
        }
    }

    /// The opcode with this name, or `None` if no opcode has it.
    pub fn from_name(name: &str) -> Option<Self>
        ensures found { IfSome result (λ op. name_of op ≡ name.now) }
        ensures all { (op : Op) → name_of op ≡ name.now → result ≡ Some op }
    {
        Op::from_bytes(name.as_bytes())
    }

    /// The opcode whose name has these bytes, or `None` if no opcode has it.
    pub fn from_bytes(name: &[u8]) -> Option<Self>
        ensures { result ≡ find (λ op. bytes_eq (name_of op) name.now) opcodes }
    {
        match *name {
            [only] => Op::with_one(only),
            [first, second] => Op::with_two(first, second),
            [first, second, third] => Op::with_three(first, second, third),
            [first, second, third, last] => Op::with_four(first, second, third, last),
            [b'u', b'n', b'e', b'x', b't'] => Some(Op::Micronext),
            _ => None,
        }
    }

    // The opcode whose name is one character.
    fn with_one(only: u8) -> Option<Self>
        ensures { result ≡ find (λ op. bytes_eq (name_of op) (only ∷ [])) opcodes }
    {
        let op = match only {
            b';' => Op::Return,
            b'@' => Op::Fetch,
            b'!' => Op::Store,
            b'-' => Op::Not,
            b'+' => Op::Plus,
            b'a' => Op::A,
            b'.' => Op::Nop,
            _ => return None,
        };
        Some(op)
    }

    // The opcode whose name is two characters.
    fn with_two(first: u8, second: u8) -> Option<Self>
        ensures { result ≡ find (λ op. bytes_eq (name_of op) (first ∷ second ∷ [])) opcodes }
    {
        let op = match (first, second) {
            (b'e', b'x') => Op::Execute,
            (b'i', b'f') => Op::If,
            (b'@', b'p') => Op::FetchP,
            (b'@', b'+') => Op::FetchPlus,
            (b'@', b'b') => Op::FetchB,
            (b'!', b'p') => Op::StoreP,
            (b'!', b'+') => Op::StorePlus,
            (b'!', b'b') => Op::StoreB,
            (b'+', b'*') => Op::MultiplyStep,
            (b'2', b'*') => Op::TwoStar,
            (b'2', b'/') => Op::TwoSlash,
            (b'o', b'r') => Op::Or,
            (b'b', b'!') => Op::BStore,
            (b'a', b'!') => Op::AStore,
            _ => return None,
        };
        Some(op)
    }

    // The opcode whose name is three characters.
    fn with_three(first: u8, second: u8, third: u8) -> Option<Self>
        ensures { result ≡ find (λ op. bytes_eq (name_of op) (first ∷ second ∷ third ∷ []))
            opcodes }
    {
        match (first, second, third) {
            (b'-', b'i', b'f') => Some(Op::MinusIf),
            (b'a', b'n', b'd') => Some(Op::And),
            (b'd', b'u', b'p') => Some(Op::Dup),
            (b'p', b'o', b'p') => Some(Op::Pop),
            _ => None,
        }
    }

    // The opcode whose name is four characters.
    fn with_four(first: u8, second: u8, third: u8, last: u8) -> Option<Self>
        ensures { result ≡ find (λ op. bytes_eq (name_of op)
            (first ∷ second ∷ third ∷ last ∷ [])) opcodes }
    {
        let op = match (first, second, third, last) {
            (b'j', b'u', b'm', b'p') => Op::Jump,
            (b'c', b'a', b'l', b'l') => Op::Call,
            (b'n', b'e', b'x', b't') => Op::Next,
            (b'd', b'r', b'o', b'p') => Op::Drop,
            (b'o', b'v', b'e', b'r') => Op::Over,
            (b'p', b'u', b's', b'h') => Op::Push,
            _ => return None,
        };
        Some(op)
    }

    /// Whether slot 3 has room for the opcode: its lower two bits are 0.
    pub fn fits_slot3(self) -> bool
        ensures { result ≡ fits_slot3 self }
    {
        self.code() & 3 == 0
    }

    /// Whether the rest of the word is the opcode's destination.
    pub fn takes_dest(self) -> bool
        ensures { result ≡ takes_dest self }
    {
        matches!(self, Op::Jump | Op::Call | Op::Next | Op::If | Op::MinusIf)
    }

    /// Whether no slot of a word is run behind the opcode: `;`, `ex` and what takes a destination.
    pub fn ends_word(self) -> bool
        ensures { result ≡ ends_word self }
    {
        matches!(self, Op::Return | Op::Execute) || self.takes_dest()
    }
}

impl fmt::Display for Op {
    ghost output = { λ op. Some (name_of op) };

    fn fmt<W: fmt::Write>(&self, f: &mut fmt::Formatter<W>) -> fmt::Result {
        f.write_str(self.name())
    }
}
