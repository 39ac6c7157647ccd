// What collection and can-fill answer, as the input has it.
use answers::answer::{Counts, Refusal};
use cells::question::Question;

// The area of a name, as the input has it.
const SPEC: u64 = 1;

const CALL: u64 = 2;

// 0 and the four counts; or the refusal's number, its count, the area of its name, and the payload.
pub fn ending_of(answer: Result<Counts, Refusal>) -> [u64; 5] {
    match answer {
        Ok(counts) => [
            0,
            counts.taken as u64,
            counts.defaulted as u64,
            counts.star as u64,
            counts.named as u64,
        ],
        Err(refusal) => refused(refusal),
    }
}

fn refused(refusal: Refusal) -> [u64; 5] {
    match refusal {
        Refusal::Record(question) => [question.number(), 0, 0, 0, 0],
        Refusal::ArgsArrayIsNotIterable => [15, 0, 0, 0, 0],
        Refusal::RepeatedParameter(name) => [16, 0, SPEC, name, 0],
        Refusal::KwArgsIsNotDict => [17, 0, 0, 0, 0],
        Refusal::ArgsValueIsNotString => [18, 0, 0, 0, 0],
        Refusal::RepeatedArg(name) => [19, 0, CALL, name, 0],
        Refusal::MissingPositionalOnly(name) => [20, 0, SPEC, name, 0],
        Refusal::Missing(name) => [21, 0, SPEC, name, 0],
        Refusal::MissingNamedOnly(name) => [22, 0, SPEC, name, 0],
        Refusal::ExtraPositionalArg(count) => [23, count as u64, 0, 0, 0],
        Refusal::ExtraNamedArg(count, name) => [24, count as u64, CALL, name, 0],
    }
}

// The refusal's number or 0, then 1 for yes and 0 for no or a refusal.
pub fn filling_of(filling: Result<bool, Question>) -> [u64; 5] {
    match filling {
        Ok(answer) => [0, answer as u64, 0, 0, 0],
        Err(question) => [question.number(), 0, 0, 0, 0],
    }
}
