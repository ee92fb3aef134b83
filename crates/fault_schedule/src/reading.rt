//! How a control line is read.
ghost use Rattle.std.specs.Prelude.{◌≡◌, [], ◌∷◌, Some, IfSome};
ghost use Rattle.fault_schedule.specs.Spelling.{IsSpelled, words_of, IsAllowed};
ghost use Rattle.fault_schedule.specs.Reading as spec;
ghost use Rattle.fault_schedule.specs.declared.control.Control.{Control};

use crate::control::Control;
use crate::fields::{counted, kind, number, small};
use crate::line::{first_word, text_of};

/// The control that the line spells; none exactly where it spells none. It takes no memory.
pub fn read_control(line: &[u8]) -> Option<Control>
    ensures found { IfSome result (λ control. IsSpelled line.now control) }
    ensures only { (control : Control) → IsSpelled line.now control → result ≡ Some control }
{
    read_words(text_of(line))
}

fn read_words(text: &[u8]) -> Option<Control>
    ensures { result ≡ spec.control_of (spec.words text.now) }
{
    let (command, rest) = first_word(text);
    let Some(rest) = rest else {
        return alone(command);
    };
    let (a, rest) = first_word(rest);
    let Some(rest) = rest else {
        return with_one(command, a);
    };
    let (b, rest) = first_word(rest);
    let Some(rest) = rest else {
        return with_two(command, a, b);
    };
    let (c, rest) = first_word(rest);
    match rest {
        None => with_three(command, a, b, c),
        Some(_) => None,
    }
}

/// The control of a command without a field.
#[tactic(auto, unfolding(crate::specs::Reading::alone))]
fn alone(command: &[u8]) -> Option<Control>
    ensures { result ≡ spec.alone command.now }
{
    if command == b":heal".as_slice() {
        Some(Control::Heal)
    } else if command == b":keep".as_slice() {
        Some(Control::Keep)
    } else if command == b":addnode".as_slice() {
        Some(Control::AddNode)
    } else if command == b":balance".as_slice() {
        Some(Control::Balance)
    } else if command == b":parts".as_slice() {
        Some(Control::Parts)
    } else {
        None
    }
}

/// The control of a command with one field.
#[tactic(auto, unfolding(crate::specs::Reading::with_one))]
fn with_one(command: &[u8], a: &[u8]) -> Option<Control>
    ensures { result ≡ spec.with_one command.now a.now }
{
    if command == b":lose".as_slice() {
        Some(Control::Lose(kind(a)?))
    } else if command == b":crash".as_slice() {
        Some(Control::Crash(small(a)?))
    } else if command == b":restart".as_slice() {
        restart(a)
    } else if command == b":giveup".as_slice() {
        Some(Control::GiveUp(small(a)?))
    } else if command == b":rounds".as_slice() {
        Some(Control::Rounds(counted(a, 64)?))
    } else if command == b":balance".as_slice() && a == b"step".as_slice() {
        Some(Control::BalanceStep)
    } else {
        None
    }
}

#[tactic(auto, unfolding(crate::specs::Reading::restart))]
fn restart(a: &[u8]) -> Option<Control>
    ensures { result ≡ spec.restart a.now }
{
    if a == b"meta".as_slice() {
        Some(Control::RestartMeta)
    } else {
        Some(Control::Restart(small(a)?))
    }
}

/// The control of a command with two fields.
#[tactic(auto, unfolding(crate::specs::Reading::with_two))]
fn with_two(command: &[u8], a: &[u8], b: &[u8]) -> Option<Control>
    ensures { result ≡ spec.with_two command.now a.now b.now }
{
    if command == b":cut".as_slice() {
        Some(Control::Cut(small(a)?, small(b)?))
    } else if command == b":again".as_slice() {
        Some(Control::Again(kind(a)?, number(b, u64::MAX)?))
    } else if command == b":elect".as_slice() {
        Some(Control::Elect(small(a)?, small(b)?, false))
    } else if command == b":chaos".as_slice() {
        Some(Control::Chaos(number(a, u64::MAX)?, counted(b, 1000)?))
    } else {
        None
    }
}

/// The control of a command with three fields.
#[tactic(auto, unfolding(crate::specs::Reading::with_three))]
fn with_three(command: &[u8], a: &[u8], b: &[u8], c: &[u8]) -> Option<Control>
    ensures { result ≡ spec.with_three command.now a.now b.now c.now }
{
    if command == b":elect".as_slice() && c == b"cancel".as_slice() {
        Some(Control::Elect(small(a)?, small(b)?, true))
    } else if command == b":move".as_slice() {
        Some(Control::Move(small(a)?, small(b)?, small(c)?))
    } else {
        None
    }
}
