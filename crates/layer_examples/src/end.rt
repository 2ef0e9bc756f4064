// What answers a question, how a task ends, and how what is inside it ends.

ghost use Rattle.std.specs.Prelude.{◌≡◌};
ghost use Rattle.layer_examples.specs.Ends.{reply_of, end_of};

/// What begins a layer, and what answers its questions.
#[derive(Clone, Copy)]
pub enum Answer {
    Go,
    Done(u64),
    Raise(u64),
}

/// How a task ends.
#[derive(Clone, Copy, Debug, PartialEq, Eq)]
pub enum End {
    Done(u64),
    Raised(u64),
}

/// How what is inside a task ends: by its value, by what was raised, or by leaving it.
#[derive(Clone, Copy)]
pub enum Flow {
    Value(u64),
    Thrown(u64),
    Left,
}

/// The end that the answer to a question gives.
pub fn reply(answer: Answer) -> Flow
    ensures { result ≡ reply_of answer }
{
    match answer {
        Answer::Go => Flow::Left,
        Answer::Done(value) => Flow::Value(value),
        Answer::Raise(error) => Flow::Thrown(error),
    }
}

/// The end of a task. One that was left is done with nothing.
pub fn close(end: Flow) -> End
    ensures { result ≡ end_of end }
{
    match end {
        Flow::Value(value) => End::Done(value),
        Flow::Thrown(error) => End::Raised(error),
        Flow::Left => End::Done(0),
    }
}
