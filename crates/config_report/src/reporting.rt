//! What is wrong with a text that describes no cluster.
use crate::form::check_form;
use crate::json::read_json;
use crate::nodes::{check_addresses, check_count, check_ids, check_masters};
use crate::numbers::check_numbers;
use crate::slots::check_slots;
use crate::voters::check_voters;
use crate::wrong::Halt;
use config_text::ConfigFault;
use std::alloc::{AllocError, Global};

/// The first thing of the fault's kind that is wrong with the text, and where it stands, as in
/// `nodes[1].slots: slot 5461 is in nodes[0].slots too`. It has no newline. Where nothing of that kind is found, as for
/// `Memory`, it is a plain line that tells the fault. The fault should be the one that `read_config` gives for the text.
///
/// It takes the time of sorting the members of the text. It fails where memory is refused.
pub fn report(alloc: Global, text: &[u8], fault: ConfigFault) -> Result<String, AllocError> {
    match check(alloc, text, fault) {
        Ok(()) => fault.to_string(alloc),
        Err(Halt::Wrong(sentence)) => Ok(sentence),
        Err(Halt::Memory) => Err(AllocError),
    }
}

fn check(alloc: Global, text: &[u8], fault: ConfigFault) -> Result<(), Halt> {
    if fault == ConfigFault::Memory {
        return Ok(());
    }
    let cluster = read_json(alloc, text)?;
    match fault {
        ConfigFault::Syntax => check_form(alloc, &cluster),
        ConfigFault::Id => check_ids(alloc, &cluster),
        ConfigFault::Slots => check_slots(alloc, &cluster),
        ConfigFault::ReplicaOf => check_masters(alloc, &cluster),
        ConfigFault::Voters => check_voters(alloc, &cluster),
        ConfigFault::TooManyNodes => check_count(alloc, &cluster),
        ConfigFault::Address => check_addresses(alloc, &cluster),
        ConfigFault::Range => check_numbers(alloc, &cluster),
        ConfigFault::Memory => Ok(()),
    }
}
