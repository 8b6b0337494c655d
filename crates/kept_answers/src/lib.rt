// What a C caller is given of the kept table: for each answer of its calls one number.
#![tactic(auto)]

ghost use Rattle.answers.specs.Coded.{Tells};
ghost use Rattle.kept_answers.specs.Replies.{of_built, of_count, of_length};

use answers::code;
use refusals::Refusal;

// 0 if the table is built.
pub fn give_built(built: Result<(), Refusal>) -> u64
    ensures { Tells (of_built built) result }
{
    match built {
        Ok(()) => 0,
        Err(refusal) => code(refusal),
    }
}

// A number: how many entries were rewritten, or a length.
pub fn give_number(answer: Result<u32, Refusal>) -> u64
    ensures count { Tells (of_count answer) result }
    ensures length { Tells (of_length answer) result }
{
    match answer {
        Ok(number) => u64::from(number),
        Err(refusal) => code(refusal),
    }
}

// How many entries a correction rewrote.
pub fn give_count(count: Result<u32, Refusal>) -> u64
    ensures { Tells (of_count count) result }
{
    give_number(count)
}

// A length.
pub fn give_length(length: Result<u32, Refusal>) -> u64
    ensures { Tells (of_length length) result }
{
    give_number(length)
}
