//! A step that stands in a journal.
ghost use Rattle.std.specs.Prelude.{◌≡◌};

use cell_parts::Deployment;
use node_core::{Event, Outputs, Response};
use node_gate::Answered;
use std::marker::{Model, PhantomData};
use std::snapshot::Snapshot;

/// A step that a cell of this cluster made and entered. Only [`Asks`](crate::Asks) and [`deliver`](crate::NodeCell::deliver) make one.
///
/// Clauses also see the event and all that came out. The program keeps the ticket and the response here.
pub struct Entered<K: Deployment> {
    ticket: u64,
    response: Response,
    event: Snapshot<Event>,
    outputs: Snapshot<Outputs>,
    cluster: PhantomData<K>,
}

impl<K: Deployment> Model for Entered<K> {
    ghost use Rattle.std.specs.Prelude.{◌≡◌};
    ghost use Rattle.cell_parts.specs.Journal.{EnteredView};

    ghost Value = { EnteredView };

    ghost view = { λ entered.
        record { event = entered.event.value; outputs = entered.outputs.value } };

    ghost invariant = { λ entered.
        (entered.ticket ≡ entered.outputs.value.ticket)
        × (entered.response ≡ entered.outputs.value.response) };
}

impl<K: Deployment> Drop for Entered<K> {
    fn drop(self) {
        let Entered {
            ticket: _,
            response: _,
            event: _,
            outputs: _,
            cluster: _,
        } = self;
    }
}

impl<K: Deployment> Entered<K> {
    // A step that was made for the event. Of its outputs the ticket and the response are kept here.
    pub(crate) fn new(
        event: Snapshot<Event>,
        outputs: Snapshot<Outputs>,
        ticket: u64,
        response: Response,
    ) -> Entered<K>
        requires ticket { ticket ≡ outputs.value.ticket }
        requires response { response ≡ outputs.value.response }
        ensures { result ≡ record { event = event.value; outputs = outputs.value } }
    {
        Entered {
            ticket,
            response,
            event,
            outputs,
            cluster: PhantomData,
        }
    }

    /// The number of the step among the steps of all nodes.
    pub fn ticket(&self) -> u64
        ensures { result ≡ self.now.outputs.ticket }
    {
        self.ticket
    }

    /// What the sender of the event gets back.
    pub fn response(&self) -> &Response
        ensures { result.now ≡ self.now.outputs.response }
    {
        &self.response
    }

    // All that came out of the step, as only proofs read it.
    pub(crate) fn gave(&self) -> &Snapshot<Outputs>
        ensures { result.now.value ≡ self.now.outputs }
    {
        &self.outputs
    }
}

impl<K: Deployment> Answered for Entered<K> {
    ghost event = { λ entered. entered.event };

    ghost gave = { λ entered. entered.outputs };

    fn response(&self) -> &Response {
        Entered::response(self)
    }
}
