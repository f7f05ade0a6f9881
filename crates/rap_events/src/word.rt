//! Events as words of 32 bits.
ghost use Rattle.std.specs.Prelude.{◌≡◌, ℕ, List, ◌+◌, ◌*◌, ◌/◌, ◌%◌, ◌<◌, ◌≤◌, ◌^◌, true, false};
ghost use Rattle.rap_base.specs.NodeKind.{PATH_META, SOURCE_FILE};
ghost use Rattle.rap_events.specs.declared.event.Event.TheVariants as event;
ghost use Rattle.rap_events.specs.StepValue.{enter, exit, float_split, error};
ghost use Rattle.rap_events.specs.Word.{fields, has_byte, word_of, word_of_event, Fits, HasNumber};

use crate::event::Event;
use rap_base::syntax_kind::SyntaxKind;
use std::marker::Model;
use std::mem::size_of;

/// An event in 32 bits. Contracts see the event.
///
/// For a message, bit 0 is 0 and bits 1 to 31 hold its number among the messages. Otherwise bit 0 is 1; bits 4 to 7
/// hold the event's number; bits 8 to 15 hold the number of input tokens of a token, 1 for a float that ends in a dot,
/// else 0; bits 16 to 31 hold the number of the kind, or 0 for an event without kind.
#[derive(Clone, Copy)]
pub(crate) struct Word {
    bits: u32,
}

impl Model for Word {
    ghost use Rattle.rap_events.specs.declared.event.Event.{Event};

    ghost Value = { Event };

    ghost use Rattle.rap_events.specs.Word.{word_of_event, event_of, IsWord};

    ghost view = { λ w. event_of w.bits };

    ghost invariant = { λ w. IsWord w.bits };

    ghost inverse = { λ e. record { bits = word_of_event e } };

    ghost use Rattle.std.specs.Prelude.{ℕ};
    ghost use Rattle.std.proofs.Common.{ap};

    ghost inverse_ok = { λ w h. ap (λ (bits : ℕ). record { bits = bits }) h.word };
}

const _: () = prove!(size_of::<Word>() <= 4);

// What stands in bits 4 to 7: first the steps, then the events that are no steps.
const TOKEN: u32 = 0;

const ENTER: u32 = 1;

const EXIT: u32 = 2;

const FLOAT_SPLIT: u32 = 3;

const START: u32 = 4;

const PRECEDE: u32 = 5;

const FINISH: u32 = 6;

const EXTEND: u32 = 7;

const ABANDON: u32 = 8;

impl Word {
    /// Returns the word of an event. A message's number must be below 2^31.
    #[inline(always)]
    pub(crate) fn of_event(event: Event) -> Word
        requires { HasNumber event }
        ensures { result ≡ event }
    {
        Word {
            bits: bits_of(event),
        }
    }

    /// The words of some steps: which bits hold what. A law: the function does nothing.
    pub(crate) fn are_fields()
        ensures enter { word_of (enter SOURCE_FILE) 0 ≡ 0x009E0011 }
        ensures exit { word_of exit 0 ≡ 0x00000021 }
        ensures split { word_of (float_split false) 0 ≡ 0x00000031 }
        ensures dotted { word_of (float_split true) 0 ≡ 0x00000131 }
        ensures message { (bytes : List ℕ) (number : ℕ) → word_of (error bytes) number ≡ 2 * number }
    {}

    /// Returns the event of the word.
    #[inline(always)]
    #[tactic(auto, using(crate::proofs::Words::which_below))]
    pub(crate) fn event(&self) -> Event
        ensures { result ≡ self.now }
    {
        let bits = self.bits;
        if bits & 1 == 0 {
            return Event::Error { message: bits >> 1 };
        }
        let kind = SyntaxKind::from_u16((bits >> 16) as u16);
        let byte = ((bits >> 8) & 0xFF) as u8;
        match (bits >> 4) & 0xF {
            TOKEN => Event::Token {
                n_input_tokens: byte,
                kind,
            },
            ENTER => Event::Enter { kind },
            EXIT => Event::Exit,
            FLOAT_SPLIT => Event::FloatSplit {
                ends_in_dot: byte == 1,
            },
            START => Event::Start,
            PRECEDE => Event::Precede,
            FINISH => Event::Finish { kind },
            EXTEND => Event::Extend,
            ABANDON => Event::Abandon,
            _ => unreachable!(),
        }
    }

    /// The same, sooner for what a parser records most: tokens, and where nodes start and finish.
    ///
    /// Three comparisons of the lowest byte are known earlier than the place in a table of jumps.
    #[inline(always)]
    #[tactic(auto, using(crate::proofs::Words::token_byte, crate::proofs::Words::start_byte, crate::proofs::Words::finish_byte))]
    pub(crate) fn call(&self) -> Event
        ensures { result ≡ self.now }
    {
        let bits = self.bits;
        match bits % 256 {
            0x01 => token_of(bits),
            0x41 => Event::Start,
            0x61 => Event::Finish {
                kind: kind_of(bits),
            },
            _ => self.event(),
        }
    }

    /// The same, sooner for what an output has most: tokens, and where nodes begin and end.
    #[inline(always)]
    #[tactic(auto, using(crate::proofs::Words::token_byte, crate::proofs::Words::enter_byte, crate::proofs::Words::exit_byte))]
    pub(crate) fn step(&self) -> Event
        ensures { result ≡ self.now }
    {
        let bits = self.bits;
        match bits % 256 {
            0x01 => token_of(bits),
            0x11 => Event::Enter {
                kind: kind_of(bits),
            },
            0x21 => Event::Exit,
            _ => self.event(),
        }
    }

    /// Whether this is the lowest byte of the word.
    #[inline(always)]
    pub(crate) fn has_byte(&self, byte: u32) -> bool
        ensures { result ≡ has_byte byte self.now }
    {
        self.bits % 256 == byte
    }
}

// The kind in a word that is no message.
#[inline(always)]
fn kind_of(bits: u32) -> SyntaxKind
    requires { bits / 2 ^ 16 ≤ PATH_META }
    ensures { result ≡ bits / 2 ^ 16 }
{
    SyntaxKind::from_u16((bits >> 16) as u16)
}

// The token in a word that is one.
#[inline(always)]
fn token_of(bits: u32) -> Event
    requires { bits / 2 ^ 16 ≤ PATH_META }
    ensures { result ≡ event.Token (bits / 2 ^ 8 % 2 ^ 8) (bits / 2 ^ 16) }
{
    Event::Token {
        n_input_tokens: ((bits >> 8) & 0xFF) as u8,
        kind: kind_of(bits),
    }
}

#[inline(always)]
fn bits_of(event: Event) -> u32
    requires { HasNumber event }
    ensures word { result ≡ word_of_event event }
    ensures fits { Fits event }
{
    match event {
        Event::Error { message } => message << 1,
        Event::Token {
            n_input_tokens,
            kind,
        } => packed(TOKEN, n_input_tokens, u16::from(kind)),
        Event::Enter { kind } => packed(ENTER, 0, u16::from(kind)),
        Event::Exit => packed(EXIT, 0, 0),
        Event::FloatSplit { ends_in_dot: false } => packed(FLOAT_SPLIT, 0, 0),
        Event::FloatSplit { ends_in_dot: true } => packed(FLOAT_SPLIT, 1, 0),
        Event::Start => packed(START, 0, 0),
        Event::Precede => packed(PRECEDE, 0, 0),
        Event::Finish { kind } => packed(FINISH, 0, u16::from(kind)),
        Event::Extend => packed(EXTEND, 0, 0),
        Event::Abandon => packed(ABANDON, 0, 0),
    }
}

// The word that is no message and holds these.
#[inline(always)]
fn packed(which: u32, byte: u8, kind: u16) -> u32
    requires { which < 2 ^ 4 }
    ensures { result ≡ fields which byte kind }
{
    (u32::from(kind) << 16) + (u32::from(byte) << 8) + (which << 4) + 1
}
