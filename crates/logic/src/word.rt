// The words of the format: a word's tag and payload, and what it begins. No other code has a tag's number.
ghost use Rattle.std.specs.Prelude.{◌≡◌};
ghost use Rattle.logic.specs.Term.{tag_of, payload_of};
ghost use Rattle.logic.specs.Reading.{word_shape};
ghost use Rattle.logic.specs.Kind.{shape_class, shape_children, shape_binds};

// A word is a tag times this, and a payload below it.
pub const PAYLOADS: u32 = 16777216;

// P, T, S and N.
pub const TAG_PROP: u32 = 1;

pub const TAG_TYPE: u32 = 2;

pub const TAG_STRING: u32 = 3;

pub const TAG_PRIN: u32 = 4;

pub const TAG_VARIABLE: u32 = 5;

pub const TAG_CONSTANT: u32 = 6;

pub const TAG_SAYS: u32 = 7;

pub const TAG_PI: u32 = 8;

pub const TAG_LAM: u32 = 9;

pub const TAG_APP: u32 = 10;

// A string, sn.
pub const TAG_TEXT: u32 = 11;

// A principal, an.
pub const TAG_NAME: u32 = 12;

pub const TAG_SIGN: u32 = 13;

pub const TAG_RET: u32 = 14;

pub const TAG_BIND: u32 = 15;

// The sorts that occur only as types.
pub const TAG_KIND_P: u32 = 16;

pub const TAG_KIND_T: u32 = 17;

// The word of each tag: of variables, constants, strings, principals and Signs, that of number 0.
pub const PROP: u32 = TAG_PROP * PAYLOADS;

pub const TYPE: u32 = TAG_TYPE * PAYLOADS;

pub const STRING: u32 = TAG_STRING * PAYLOADS;

pub const PRIN: u32 = TAG_PRIN * PAYLOADS;

pub const VARIABLE_0: u32 = TAG_VARIABLE * PAYLOADS;

pub const CONSTANT_0: u32 = TAG_CONSTANT * PAYLOADS;

pub const SAYS: u32 = TAG_SAYS * PAYLOADS;

pub const PI: u32 = TAG_PI * PAYLOADS;

pub const LAM: u32 = TAG_LAM * PAYLOADS;

pub const APP: u32 = TAG_APP * PAYLOADS;

pub const TEXT_0: u32 = TAG_TEXT * PAYLOADS;

pub const NAME_0: u32 = TAG_NAME * PAYLOADS;

pub const SIGN_0: u32 = TAG_SIGN * PAYLOADS;

pub const RET: u32 = TAG_RET * PAYLOADS;

pub const BIND: u32 = TAG_BIND * PAYLOADS;

pub const KIND_P: u32 = TAG_KIND_P * PAYLOADS;

pub const KIND_T: u32 = TAG_KIND_T * PAYLOADS;

// What a word may begin: an atom, a variable, a Sign, a node whose second child stands
// under no binder or under one, or no term.
#[derive(Clone, Copy, Debug, PartialEq, Eq)]
pub enum Class {
    Atom,
    Variable,
    Sign,
    Node,
    Binder,
    NoTerm,
}

pub fn tag_of(word: u32) -> u32
    ensures { result ≡ tag_of word }
{
    word / PAYLOADS
}

pub fn payload_of(word: u32) -> u32
    ensures { result ≡ payload_of word }
{
    word % PAYLOADS
}

// The table of tags: what a word begins.
pub fn class_of(word: u32) -> Class
    ensures { result ≡ shape_class (word_shape word) }
{
    // by a table of bare words and one of words with a payload
    if payload_of(word) == 0 {
        match tag_of(word) {
            TAG_PROP | TAG_TYPE | TAG_STRING | TAG_PRIN => Class::Atom,
            TAG_VARIABLE => Class::Variable,
            TAG_CONSTANT | TAG_TEXT | TAG_NAME => Class::Atom,
            TAG_SAYS | TAG_APP | TAG_RET => Class::Node,
            TAG_PI | TAG_LAM | TAG_BIND => Class::Binder,
            TAG_SIGN => Class::Sign,
            _ => Class::NoTerm,
        }
    } else {
        match tag_of(word) {
            TAG_VARIABLE => Class::Variable,
            TAG_CONSTANT | TAG_TEXT | TAG_NAME => Class::Atom,
            TAG_SIGN => Class::Sign,
            _ => Class::NoTerm,
        }
    }
}

// The number of children that a word has; none for no term.
pub fn children(word: u32) -> Option<usize>
    ensures { result ≡ shape_children (word_shape word) }
{
    match class_of(word) {
        Class::Atom | Class::Variable => Some(0),
        Class::Sign => Some(1),
        Class::Node | Class::Binder => Some(2),
        Class::NoTerm => None,
    }
}

// Whether a word's second child stands under a binder.
pub fn binds(word: u32) -> bool
    ensures { result ≡ shape_binds (word_shape word) }
{
    class_of(word) == Class::Binder
}
