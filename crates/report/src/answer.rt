// What a call gave and answered, and how a receiver stands.
use crate::layout;
use crate::layout::{behind_flag, number_at, octet, pair_at};
use crate::marks::{say_marks, say_missing, say_open};
use crate::names::{KINDS, STATES, STATUSES, WINDOWS, nth};
use crate::outcome::{first_missing_in, handed_in, missing_in};
use crate::reason::{Failure, Reason, is_held, reason_of};
use crate::refusal::Refusal;
use crate::row::say_octets;
use crate::say::Counted;
use capture::line::Header;
use capture::text::from;
use std::io;

// A name where there is one, behind a space.
fn say_name(rt: &impl Print, name: Option<&str>) -> io::Result<()> {
    match name {
        Some(name) => print!(rt; " {name}"),
        None => Ok(()),
    }
}

// A status by its number and its name.
fn say_status(rt: &impl Print, n: u8) -> io::Result<()> {
    print!(rt; " {n}")?;
    say_name(rt, nth(&STATUSES, n))
}

fn say_flag(rt: &impl Print, flag: u8, name: &str) -> io::Result<()> {
    if flag != 0 {
        print!(rt; " {name}")?;
    }
    Ok(())
}

// The list of what is supported: a flag, and one for each service.
fn say_support(rt: &impl Print, list: &[u8]) -> io::Result<()> {
    if octet(list, 0) == 0 {
        return Ok(());
    }
    print!(rt; ", supported")?;
    say_flag(rt, octet(list, 1), "compression")?;
    say_flag(rt, octet(list, 2), "encryption")?;
    say_flag(rt, octet(list, 3), "window")?;
    say_flag(rt, octet(list, 4), "CRC")
}

// A map: how many entries it has, how many are missing and the first of them, by the answer's own figures; then which, if any.
fn say_map(rt: &impl Print, answer: &[u8]) -> io::Result<()> {
    let n = pair_at(answer, layout::ENTRIES);
    let missing = missing_in(answer);
    let first = first_missing_in(answer);
    print!(rt; ", map of {n}, missing {missing}, first {first}")?;
    if missing == 0 {
        return Ok(());
    }
    print!(rt; ":")?;
    say_missing(rt, from(answer, layout::MARKS), n as usize)
}

// A response that a call asks for.
fn say_reply(rt: &impl Print, answer: &[u8]) -> io::Result<()> {
    if octet(answer, 0) == 0 {
        return Ok(());
    }
    let transaction = octet(answer, layout::TRANSACTION);
    print!(rt; "; response: transaction {transaction}, status")?;
    say_status(rt, octet(answer, layout::STATUS))?;
    say_map(rt, answer)?;
    say_support(rt, from(answer, layout::SUPPORT))
}

// A message that a call hands over.
fn say_message(rt: &impl Print, answer: &[u8]) -> io::Result<()> {
    match handed_in(answer) {
        Some(n) => print!(rt; "; hands over a record of {}", Counted(n, "octet")),
        None => Ok(()),
    }
}

// A receiver's state, behind a space.
fn say_state(rt: &impl Print, receiver: &[u8]) -> io::Result<()> {
    let name = nth(&STATES, octet(receiver, layout::STATE)).unwrap_or("");
    print!(rt; " {name}")
}

// The state, where it is another than before.
fn say_change(rt: &impl Print, before: u8, receiver: &[u8]) -> io::Result<()> {
    if octet(receiver, layout::STATE) == before {
        return Ok(());
    }
    print!(rt; "; now")?;
    say_state(rt, receiver)
}

// What a call gave, its answer, and the state where it has changed.
pub fn say_answer(
    rt: &impl Print,
    taken: Result<(), Refusal>,
    answer: &[u8],
    before: u8,
    receiver: &[u8],
) -> io::Result<()> {
    match taken {
        Ok(()) => print!(rt; ": taken")?,
        Err(refusal) => print!(rt; ": refused {refusal}")?,
    }
    say_reply(rt, answer)?;
    say_message(rt, answer)?;
    say_change(rt, before, receiver)
}

// A receiver's peer by kind, width and value, and its transaction.
pub fn say_names(rt: &impl Print, header: Header) -> io::Result<()> {
    let peer = header.peer;
    print!(rt;
        " peer {} {} {}, transaction {}",
        peer.kind, peer.width, peer.value, header.transaction_id
    )
}

// ---- segments

// A Begin's window, which is Prohibited where it brings no services.
fn say_window(rt: &impl Print, decoded: &[u8]) -> io::Result<()> {
    if octet(decoded, layout::KIND) != layout::BEGIN {
        return Ok(());
    }
    match nth(&WINDOWS, octet(decoded, layout::WINDOW)) {
        Some(name) => print!(rt; ", window {name}"),
        None => Ok(()),
    }
}

// A segment that was decoded: kind, sequence, transaction, data length, a Begin's window, the length that it states.
pub fn say_segment(rt: &impl Print, decoded: &[u8]) -> io::Result<()> {
    if let Some(kind) = nth(&KINDS, octet(decoded, layout::KIND)) {
        let sequence = octet(decoded, layout::SEQUENCE);
        print!(rt; "{kind} {sequence}")?;
    }
    let transaction = octet(decoded, layout::SEGMENT_TRANSACTION);
    let data = Counted(number_at(decoded, layout::DATA_LENGTH), "octet");
    print!(rt; ", transaction {transaction}, {data}")?;
    say_window(rt, decoded)?;
    match behind_flag(decoded, layout::SEGMENT_STATED).map(|at| pair_at(decoded, at)) {
        Some(n) => print!(rt; ", states {n}"),
        None => Ok(()),
    }
}

// The octets that a receiver has, and of how many, where a length was stated.
fn say_so_far(rt: &impl Print, receiver: &[u8]) -> io::Result<()> {
    let n = number_at(receiver, layout::STORED);
    match behind_flag(receiver, layout::STATED).map(|at| pair_at(receiver, at)) {
        Some(stated) => print!(rt; ", {n} of {stated} octets"),
        None => print!(rt; ", {} so far", Counted(n, "octet")),
    }
}

// The status of a receiver that has failed, and the reason.
fn say_failure(rt: &impl Print, receiver: &[u8], reason: Option<Reason>) -> io::Result<()> {
    say_status(rt, octet(receiver, layout::STATE + 1))?;
    match reason {
        Some(reason) => print!(rt; " ({reason})"),
        None => Ok(()),
    }
}

// A segment that was received: whether it is new, and whether it is taken or fails the reception.
fn say_received(rt: &impl Print, before: &[u8], decoded: &[u8], receiver: &[u8]) -> io::Result<()> {
    if is_held(before, octet(decoded, layout::SEQUENCE)) {
        print!(rt; ", repeat")?;
    } else {
        print!(rt; ", new")?;
    }
    if octet(receiver, layout::STATE) == layout::FAILED {
        print!(rt; ": fails the reception, status")?;
        let status = octet(receiver, layout::STATE + 1);
        return say_failure(rt, receiver, reason_of(before, decoded, status));
    }
    print!(rt; ": taken")?;
    say_so_far(rt, receiver)
}

// A segment that was refused, with its octets.
pub fn say_refused_segment(
    rt: &impl Print,
    refusal: Refusal,
    before: u8,
    receiver: &[u8],
    segment: &[u8],
) -> io::Result<()> {
    print!(rt; ": refused {refusal}")?;
    say_change(rt, before, receiver)?;
    print!(rt; "; octets")?;
    say_octets(rt, segment)
}

// What a receive gave and answered: before is RECEIVER before the call, decoded is DECODED of the segment.
pub fn say_reception(
    rt: &impl Print,
    taken: Result<(), Refusal>,
    answer: &[u8],
    before: &[u8],
    decoded: &[u8],
    receiver: &[u8],
    segment: &[u8],
) -> io::Result<()> {
    let state = octet(before, layout::STATE);
    if let Err(refusal) = taken {
        return say_refused_segment(rt, refusal, state, receiver, segment);
    }
    say_received(rt, before, decoded, receiver)?;
    say_reply(rt, answer)?;
    say_message(rt, answer)?;
    say_change(rt, state, receiver)
}

// ---- results

fn say_deadline(rt: &impl Print, receiver: &[u8]) -> io::Result<()> {
    match behind_flag(receiver, layout::DEADLINE).map(|at| number_at(receiver, at)) {
        Some(at) => print!(rt; ", deadline {at}"),
        None => print!(rt; ", deadline none"),
    }
}

// What a receiver that held these segments lacks.
fn say_lack(rt: &impl Print, receiver: &[u8], held: &[u8]) -> io::Result<()> {
    match behind_flag(receiver, layout::END).map(|at| octet(receiver, at)) {
        Some(end) => say_missing(rt, held, usize::from(end) + 1),
        None => say_open(rt, held),
    }
}

// The failure that was kept.
fn say_kept(rt: &impl Print, receiver: &[u8], failure: Option<Failure>) -> io::Result<()> {
    match failure {
        Some(Failure { reason, line }) => {
            say_failure(rt, receiver, reason)?;
            print!(rt; " at line {line}")
        }
        None => say_failure(rt, receiver, None),
    }
}

// Where a receiver stands that handed nothing over: its state, and why it failed; or its deadline, the segments that it last held, and those
// that are missing.
pub fn say_standing(
    rt: &impl Print,
    receiver: &[u8],
    held: &[u8],
    failure: Option<Failure>,
) -> io::Result<()> {
    print!(rt; "no record: state")?;
    say_state(rt, receiver)?;
    if octet(receiver, layout::STATE) == layout::FAILED {
        return say_kept(rt, receiver, failure);
    }
    say_deadline(rt, receiver)?;
    print!(rt; ", last held")?;
    say_marks(rt, held)?;
    print!(rt; ", missing")?;
    say_lack(rt, receiver, held)
}

// The failure of a receiver that had handed a record over.
pub fn say_failed_after(
    rt: &impl Print,
    receiver: &[u8],
    failure: Option<Failure>,
) -> io::Result<()> {
    print!(rt; ", and the reception failed after it, status")?;
    say_kept(rt, receiver, failure)
}
