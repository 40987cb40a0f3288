// What a line asks for.
use crate::lines::byte_at;

#[derive(Clone, Copy)]
pub(crate) enum Call {
    Encode,
    Extract,
    Quantise,
    Decode,
    // a name that is none of the others: the decoder, with the first six of its numbers
    Other,
    ListWords,
    WriteJob,
    TestLoad,
    WriteResult,
    ReadAsCustomer,
    ReadAsOperator,
}

// The call by its name, which the first letter tells for calls on result records and else the second one; none where there is no name.
pub(crate) fn call_of(call: &[u8]) -> Option<Call> {
    match (byte_at(call, 2), byte_at(call, 3)) {
        (b'r', _) => Some(Call::WriteResult),
        (b'c', _) => Some(Call::ReadAsCustomer),
        (b'o', _) => Some(Call::ReadAsOperator),
        (_, 0) => None,
        (_, b'n') => Some(Call::Encode),
        (_, b'x') => Some(Call::Extract),
        (_, b'u') => Some(Call::Quantise),
        (_, b'e') => Some(Call::Decode),
        (_, b'i') => Some(Call::ListWords),
        (_, b'r') => Some(Call::WriteJob),
        (_, b'o') => Some(Call::TestLoad),
        _ => Some(Call::Other),
    }
}
