// Calls in an order that matters, on stores of so many chunks.
use crate::calls::{Answer, Call, LAST};
use stores::StoreFault;

const AGREED: Answer = Ok(0);

const NONE_FREE: Answer = Err(StoreFault::NoneFree);

const NOT_OUT: Answer = Err(StoreFault::NotOut);

const NO_SUCH_ROW: Answer = Err(StoreFault::NoSuchRow);

const NO_CHUNK: [(Call, Answer); 7] = [
    (Call::Count, Ok(0)),
    (Call::Take, NONE_FREE),
    (Call::Read(0, 0), NOT_OUT),
    (Call::Write(0, 0, 1), NOT_OUT),
    (Call::Read(0, 128), NOT_OUT),
    (Call::GiveBack(0), NOT_OUT),
    (Call::Free, Ok(0)),
];

const ONE_CHUNK: [(Call, Answer); 11] = [
    (Call::GiveBack(0), NOT_OUT),
    (Call::Take, Ok(0)),
    (Call::Take, NONE_FREE),
    (Call::Write(0, 3, 5), AGREED),
    (Call::GiveBack(0), AGREED),
    (Call::GiveBack(0), NOT_OUT),
    (Call::Free, Ok(1)),
    (Call::Take, Ok(0)),
    (Call::Read(0, 3), Ok(0)),
    (Call::Take, NONE_FREE),
    (Call::Count, Ok(1)),
];

// A take goes on from the chunk taken last, and from the last chunk round to 0.
const ROUND: [(Call, Answer); 18] = [
    (Call::Take, Ok(0)),
    (Call::Take, Ok(1)),
    (Call::GiveBack(0), AGREED),
    (Call::Take, Ok(2)),
    (Call::Take, Ok(0)),
    (Call::Take, NONE_FREE),
    (Call::GiveBack(2), AGREED),
    (Call::GiveBack(1), AGREED),
    (Call::Free, Ok(2)),
    (Call::Take, Ok(1)),
    (Call::Take, Ok(2)),
    (Call::Take, NONE_FREE),
    (Call::GiveBack(1), AGREED),
    (Call::GiveBack(2), AGREED),
    (Call::GiveBack(0), AGREED),
    (Call::Take, Ok(0)),
    (Call::Take, Ok(1)),
    (Call::Free, Ok(1)),
];

// Neither giving back nor a refusal moves where the next take begins.
const MARK_STAYS: [(Call, Answer); 17] = [
    (Call::Take, Ok(0)),
    (Call::Take, Ok(1)),
    (Call::GiveBack(1), AGREED),
    (Call::GiveBack(1), NOT_OUT),
    (Call::GiveBack(3), NOT_OUT),
    (Call::Take, Ok(2)),
    (Call::Take, Ok(1)),
    (Call::Take, NONE_FREE),
    (Call::GiveBack(0), AGREED),
    (Call::GiveBack(1), AGREED),
    (Call::GiveBack(2), AGREED),
    (
        Call::Spare(4),
        Err(StoreFault::TooFewFree { needed: 4, free: 3 }),
    ),
    (Call::Take, Ok(2)),
    (Call::Take, Ok(0)),
    (Call::Take, Ok(1)),
    (Call::Take, NONE_FREE),
    (Call::Count, Ok(3)),
];

const TAKEN_AGAIN: [(Call, Answer); 17] = [
    (Call::Take, Ok(0)),
    (Call::Take, Ok(1)),
    (Call::Write(0, 0, 5), AGREED),
    (Call::Write(0, 3, LAST), AGREED),
    (Call::Write(1, 0, 6), AGREED),
    (Call::GiveBack(0), AGREED),
    (Call::Read(0, 0), NOT_OUT),
    (Call::Read(1, 0), Ok(6)),
    (Call::Take, Ok(2)),
    (Call::Take, Ok(0)),
    (Call::Read(0, 0), Ok(0)),
    (Call::Read(0, 3), Ok(0)),
    (Call::Read(1, 0), Ok(6)),
    (Call::Write(1, 0, 9), AGREED),
    (Call::Read(1, 0), Ok(9)),
    (Call::Write(1, 0, 0), AGREED),
    (Call::Read(1, 0), Ok(0)),
];

pub(crate) static CASES: [(usize, &[(Call, Answer)]); 5] = [
    (0, &NO_CHUNK),
    (1, &ONE_CHUNK),
    (3, &ROUND),
    (3, &MARK_STAYS),
    (3, &TAKEN_AGAIN),
];

// Three chunks: the first stays out with line 1 in row 1 and the last line in row 3, the second is given back with line 2 in row 2, and the third is never taken.
pub(crate) static LEFT: [(Call, Answer); 14] = [
    (Call::Take, Ok(0)),
    (Call::Take, Ok(1)),
    (Call::Write(0, 1, 1), AGREED),
    (Call::Write(0, 3, LAST), AGREED),
    (Call::Read(0, 3), Ok(LAST)),
    (Call::Write(0, 2, 5), AGREED),
    (Call::Write(0, 2, 0), AGREED),
    (Call::Write(1, 2, 5), AGREED),
    (Call::Write(1, 2, 2), AGREED),
    (Call::Read(1, 2), Ok(2)),
    (Call::Write(0, 128, 5), NO_SUCH_ROW),
    (Call::GiveBack(1), AGREED),
    (Call::GiveBack(1), NOT_OUT),
    (Call::GiveBack(usize::MAX), NOT_OUT),
];
