// What may be asked of a plan.

// Which of the two queues at hand serves an answer.
#[derive(Clone, Copy)]
pub enum QueueChoice {
    First,
    Second,
}

// What is lent for an answer: so many marks, record entries and weights, and a queue.
#[derive(Clone, Copy)]
pub struct Lent {
    pub marks: usize,
    pub entries: usize,
    pub weights: usize,
    pub queue: QueueChoice,
}

// A call with its arguments; a code, marks and a sheet are given by their bytes.
#[derive(Drop)]
pub enum Call<W> {
    Enter(Vec<u8>),
    Recode {
        unit: usize,
        code: Vec<u8>,
    },
    Link {
        first: usize,
        second: usize,
        weight: W,
    },
    Strike(usize),
    Reweigh {
        link: usize,
        weight: W,
    },
    Mark {
        link: usize,
        // a number, as one that is no mark is to be refused
        mark: u8,
    },
    Weigh(Vec<u8>),
    Read(Vec<u8>),
    // into so many bytes
    Write {
        // a number, as one that is no issue is to be refused
        issue: u16,
        room: usize,
    },
    Weakest(Lent),
    Trial {
        link: usize,
        lent: Lent,
    },
}
