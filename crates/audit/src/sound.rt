//! Whether what journals say of messages agrees.
ghost use Rattle.std.specs.Prelude.{◌≡◌, true, false, All, Contains};
ghost use Rattle.audit.specs.Merge.{AllAreSound, IsSound, WasSent, sent_in};

use crate::journal::NodeJournal;
use bus::Message;
use node_cell::Entry;
use node_core::Event;
use same_messages::is_same_message;

/// Whether each message that a node took was sent, by the step whose ticket it carries.
pub(crate) fn are_sound(journals: &[NodeJournal]) -> bool
    ensures sound { result ≡ true → AllAreSound journals.now }
    ensures unsound { result ≡ false → AllAreSound journals.now → ⊥ }
{
    for node in 0..journals.len() {
        if !is_sound_in(journals, journals[node].entries()) {
            return false;
        }
    }
    true
}

// Whether what these entries took was sent.
fn is_sound_in(journals: &[NodeJournal], entries: &[Entry]) -> bool
    ensures sound { result ≡ true → All (IsSound journals.now) entries.now }
    ensures unsound { result ≡ false → All (IsSound journals.now) entries.now → ⊥ }
{
    for place in 0..entries.len() {
        if !is_sound(journals, &entries[place]) {
            return false;
        }
    }
    true
}

fn is_sound(journals: &[NodeJournal], entry: &Entry) -> bool
    ensures sound { result ≡ true → IsSound journals.now entry.now }
    ensures unsound { result ≡ false → IsSound journals.now entry.now → ⊥ }
{
    match entry {
        Entry::Step {
            event: Event::Deliver(message),
            outputs: _,
        } => was_sent(journals, message),
        _ => true,
    }
}

// Whether the journal of the message's sender has it, under the ticket that it carries.
fn was_sent(journals: &[NodeJournal], message: &Message) -> bool
    ensures sent { result ≡ true → WasSent journals.now message.now }
    ensures unsent { result ≡ false → WasSent journals.now message.now → ⊥ }
{
    let Some(journal) = journals.get(message.from.index()) else {
        return false;
    };
    match journal.entry_under(message.ticket) {
        Some(entry) => has_sent(entry, message),
        None => false,
    }
}

fn has_sent(entry: &Entry, message: &Message) -> bool
    ensures sent { result ≡ true → Contains (sent_in entry.now) message.now }
    ensures unsent { result ≡ false → Contains (sent_in entry.now) message.now → ⊥ }
{
    match entry {
        Entry::Step { event: _, outputs } => is_among(outputs.sent.as_slice(), message),
        Entry::Skipped { ticket: _ } => false,
    }
}

fn is_among(sent: &[Message], message: &Message) -> bool
    ensures sent { result ≡ true → Contains sent.now message.now }
    ensures unsent { result ≡ false → Contains sent.now message.now → ⊥ }
{
    for place in 0..sent.len() {
        if is_same_message(&sent[place], message) {
            return true;
        }
    }
    false
}
