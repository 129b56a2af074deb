//! How the steps of a script are written, and what they do: a row each.
ghost use Rattle.std.specs.Prelude.{◌≡◌};
ghost use Rattle.simulator.specs.Forms.{form_of, word_of};

/// How the line of a step is written.
#[derive(Clone, Copy, PartialEq, Eq, Debug)]
pub enum StepForm {
    Call,
    Carry,
    Return,
    Cut,
    Late,
    Admin,
    Tick,
    Stop,
    Deliver,
}

/// The forms of all steps, in the order in which a reader learns them.
pub const FORMS: [StepForm; 9] = [
    StepForm::Call,
    StepForm::Carry,
    StepForm::Return,
    StepForm::Cut,
    StepForm::Late,
    StepForm::Admin,
    StepForm::Tick,
    StepForm::Stop,
    StepForm::Deliver,
];

/// What stands in a line of a form, and what its step does.
#[derive(Clone, Copy)]
pub struct StepRow {
    /// The word with which the line begins.
    pub word: &'static str,
    /// What stands behind the word: K is a client, N a node and M a message.
    pub arguments: &'static str,
    /// What the step does.
    pub meaning: &'static str,
}

impl StepForm {
    /// The form of the lines that begin with the word, or None.
    pub fn of(word: &[u8]) -> Option<StepForm>
        ensures { result ≡ form_of word.now }
    {
        FORMS
            .iter()
            .copied()
            .find(|form| form.row().word.as_bytes() == word)
    }

    /// Its row. Lines are read by it, and a help prints it.
    pub fn row(self) -> StepRow
        ensures { result.word.now ≡ word_of self }
    {
        match self {
            StepForm::Call => StepRow {
                word: "call",
                arguments: "K WORDS",
                meaning: "client K begins a call with these words",
            },
            StepForm::Carry => StepRow {
                word: "carry",
                arguments: "K",
                meaning: "what client K has sent reaches its node, which answers",
            },
            StepForm::Return => StepRow {
                word: "return",
                arguments: "K",
                meaning: "the answer reaches client K, which acts",
            },
            StepForm::Cut => StepRow {
                word: "cut",
                arguments: "K",
                meaning: "the connection that client K uses breaks, and an answer on it is lost",
            },
            StepForm::Late => StepRow {
                word: "late",
                arguments: "K",
                meaning: "the oldest request that was cut off from client K reaches its node",
            },
            StepForm::Admin => StepRow {
                word: "admin",
                arguments: "N WORDS",
                meaning: "node N is asked these words of CLUSTER or MIGRATE",
            },
            StepForm::Tick => StepRow {
                word: "tick",
                arguments: "N",
                meaning: "the clock of node N ticks",
            },
            StepForm::Stop => StepRow {
                word: "stop",
                arguments: "N",
                meaning: "node N stops for good",
            },
            StepForm::Deliver => StepRow {
                word: "deliver",
                arguments: "M",
                meaning: "message M reaches its node, for the first time or again",
            },
        }
    }
}
