// The opener of frames.
ghost use Rattle.std.specs.Prelude.{◌≡◌, Ok, Err, ◌++◌, ◌+◌, ◌*◌, ◌≤◌, length, drop};
ghost use Rattle.wire.specs.Rules.{first_broken, judge};
ghost use Rattle.wire.specs.Refusals.{refusing, checked_by};
ghost use Rattle.session.specs.Keys.{key_bytes};
ghost use Rattle.envelope.specs.Blocks.{blocks_in, nonce_number};
ghost use Rattle.envelope.specs.Sealed.{late_rules};
ghost use Rattle.bridge.specs.Opener as specs;
ghost use Rattle.bridge.specs.Opening as opening;
ghost use Rattle.bridge.specs.Reply.{uart_refused};

use crate::blocks::{clear_refused, judge_blocks};
use crate::replies::uart_refused;
use crate::{Context, Opened, Place, Refused};
use access::Level;
use aes::block_cipher::BlockCipher;
use message::{Form, Message};
use session::Session;
use wire::{Part, Refusal};

// The session after an accepted plain message: only a session nonce changes it.
fn session_by(context: Context, m: Message) -> Session
    ensures { result ≡ specs.session_by context m }
{
    let session = context.session;
    match m {
        Message::SessionNonce(f) => session.with_nonce(f.nonce, f.timeout, context.time),
        _ => session,
    }
}

// The session after a plain message, by its answer.
fn session_after(context: Context, answer: Result<(Message, Place), Refused>) -> Session
    ensures { result ≡ opening.session_by_answer context answer }
{
    match answer {
        Ok((m, _)) => session_by(context, m),
        Err(_) => context.session,
    }
}

// The answer by what a message was read as.
fn answer_by(
    in_work: bool,
    start: usize,
    end: usize,
    read: Result<Message, Refusal>,
) -> Result<(Message, Place), Refused>
    requires { start ≤ 6 }
    ensures { result ≡ opening.answer_by in_work start end read }
{
    match read {
        Ok(m) => {
            let begin = start + (2 + message::parts_at(m));
            let part = Part {
                start: begin,
                len: end.saturating_sub(begin),
            };
            let place = if in_work {
                Place::Work(part)
            } else {
                Place::Frame(part)
            };
            Ok((m, place))
        }
        Err(refusal) => Err(uart_refused(refusal)),
    }
}

// A refusal that leaves the session as it was.
pub fn refused(refusal: Refusal, context: Context) -> Opened
    ensures { result ≡ record { answer = Err (uart_refused refusal); session = context.session } }
{
    Opened {
        answer: Err(uart_refused(refusal)),
        session: context.session,
    }
}

// A plain message: 7, 14 to 24, or the message; and the session after it.
pub fn open_plain(payload: &[u8], context: Context) -> Opened
    ensures { result ≡ opening.plain_opened context payload.now }
{
    if payload.len() < 2 || 507 < payload.len() {
        return refused(Refusal::BadLength, context);
    }
    let read = message::read_message(payload, Form::Plain, context.required, context.mode);
    let answer = answer_by(false, 0, payload.len(), read);
    Opened {
        answer,
        session: session_after(context, answer),
    }
}

// The key of an encrypted message, where it is held.
pub fn key(context: Context) -> Option<[u8; 16]>
    ensures { result ≡ specs.admin_key context }
{
    context.keys.serving(context.mode, Level::Admin)
}

// The key of an encrypted message, or 10, 8, 9 and 28.
fn session_key(context: Context, payload: &[u8]) -> Result<[u8; 16], Refusal>
    ensures { result ≡ judge refusing (specs.session_rules context payload.now) (Ok (key_bytes (specs.admin_key context))) }
{
    if wire::byte_at(payload, 3) != 0 {
        return Err(Refusal::NoKey);
    }
    let Some(key) = key(context) else {
        return Err(Refusal::NoKey);
    };
    if !context.session.is_there() {
        return Err(Refusal::NoSession);
    }
    if !context.session.valid_at(context.time) {
        return Err(Refusal::SessionRunOut);
    }
    envelope::judge_nonce(context.session.memory, payload)?;
    Ok(key)
}

// The key of an encrypted message, or what is refused of it before it is deciphered: 7, 25, 10, 8, 9, 28.
fn admitted(payload: &[u8], room: usize, context: Context) -> Result<[u8; 16], Refusal>
    ensures { result ≡ judge refusing (specs.uart_entry_rules context room payload.now) (Ok (key_bytes (specs.admin_key context))) }
{
    judge_blocks(payload, room)?;
    session_key(context, payload)
}

// What is refused of a frame before the cipher runs: 5, 6, and of an encrypted message 7, 25, 10, 8, 9, 28. Any minor is accepted.
pub fn judge(
    major: u8,
    wrapper: u8,
    payload: &[u8],
    room: usize,
    context: Context,
) -> Result<(), Refusal>
    ensures { result ≡ checked_by (opening.frame_entry_rules context room major wrapper payload.now) }
{
    match wrapper {
        _ if major != 1 => Err(Refusal::UnknownMajor),
        0 => Ok(()),
        128 => {
            admitted(payload, room, context)?;
            Ok(())
        }
        _ => Err(Refusal::UnknownWrapper),
    }
}

// Where a message ends that stands behind CAFEBABE and its size.
fn end_of(m: &[u8]) -> usize
    requires { 6 + length m.now ≤ 18446744073709551615 }
    ensures { result ≡ 6 + length m.now }
{
    6 + m.len()
}

// The message in a text that gives neither 11 nor 12: 14 to 24, or the message; and the session after it.
fn read_sealed(text: &[u8], context: Context, number: u32) -> Opened
    requires { first_broken (late_rules text.now) ≡ 0 }
    ensures { result ≡ opening.text_opened context number text.now }
{
    let m = envelope::message_in(text);
    let read = message::read_message(m, Form::Encrypted, context.required, context.mode);
    Opened {
        answer: answer_by(true, 6, end_of(m), read),
        session: context.session.remember(number),
    }
}

// What an encrypted message deciphered to: 11, 12, 14 to 24, or the message; and the session after it, which remembers the number of its packet nonce unless
// 11 or 12 is given.
fn read_text(text: &[u8], context: Context, number: u32) -> Opened
    ensures { result ≡ opening.text_opened context number text.now }
{
    match envelope::judge_text(text) {
        Ok(()) => read_sealed(text, context, number),
        Err(refusal) => refused(refusal, context),
    }
}

// An encrypted message whose blocks were deciphered into the work buffer: 11, 12, 14 to 24, or the message and where its payload lies; and the session after
// it. A refusal leaves the blocks zero.
pub fn settle(payload: &[u8], context: Context, work: &mut [u8]) -> Opened
    ensures { (result ≡ opening.text_opened context (nonce_number payload.now) (opening.text_in payload.now work.old))
        × (work.new ≡ opening.work_by (16 * blocks_in payload.now) work.old result.answer) }
{
    let n = 16 * envelope::blocks_in(payload);
    let blocks = wire::part_of(work, Part { start: 0, len: n });
    let opened = read_text(blocks, context, envelope::nonce_number(payload));
    clear_refused(&opened.answer, work, n);
    opened
}

// The blocks of an encrypted message into the work buffer, which has room for them.
fn decipher<C: BlockCipher>(key: [u8; 16], payload: &[u8], context: Context, work: &mut [u8])
    requires entered { first_broken (specs.uart_entry_rules context (length work.old) payload.now) ≡ 0 }
    requires held { key ≡ key_bytes (specs.admin_key context) }
    ensures { work.new ≡ specs.uart_text context payload.now ++ drop (16 * blocks_in payload.now) work.old }
{
    let _ = envelope::decipher::<C>(key, context.session.nonce, payload, work);
}

// An encrypted message that has passed what is asked of it before it is deciphered.
fn open_admitted<C: BlockCipher>(
    key: [u8; 16],
    payload: &[u8],
    context: Context,
    work: &mut [u8],
) -> Opened
    requires entered { first_broken (specs.uart_entry_rules context (length work.old) payload.now) ≡ 0 }
    requires held { key ≡ key_bytes (specs.admin_key context) }
    ensures { (result ≡ opening.sealed_opened context (length work.old) payload.now)
        × (work.new ≡ opening.sealed_work context payload.now work.old) }
{
    decipher::<C>(key, payload, context, work);
    settle(payload, context, work)
}

// An encrypted message.
fn open_sealed<C: BlockCipher>(payload: &[u8], context: Context, work: &mut [u8]) -> Opened
    ensures { (result ≡ opening.sealed_opened context (length work.old) payload.now)
        × (work.new ≡ opening.sealed_work context payload.now work.old) }
{
    match admitted(payload, work.len(), context) {
        Ok(key) => open_admitted::<C>(key, payload, context, work),
        Err(refusal) => refused(refusal, context),
    }
}

// Opens a frame: the message and where its payload lies, or the refusal with its reply; and the session after it. Any minor is accepted.
pub fn open<C: BlockCipher>(
    major: u8,
    minor: u8,
    wrapper: u8,
    payload: &[u8],
    context: Context,
    work: &mut [u8],
) -> Opened
    ensures { specs.OpensFrame context major wrapper payload.now work.old result work.new }
{
    if major != 1 {
        return refused(Refusal::UnknownMajor, context);
    }
    match wrapper {
        0 => open_plain(payload, context),
        128 => open_sealed::<C>(payload, context, work),
        _ => refused(Refusal::UnknownWrapper, context),
    }
}
