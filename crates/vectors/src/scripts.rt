// Whole scripts, and what they are answered with to the byte.
use answers::buffer::Buffer;
use answers::step::answer_line;
use memory::flat::Flat;
use piles::pile::{Lines, Pile};
use piles::stack::Stack;
use session::session::Session;
use std::process::Abort;
use std::test::Fail;
use text::scanner::Lines as TextLines;

// Every refusal, one after the other; what is asked for in between shows that each left the pile as it was.
const REFUSALS: &str = "store flat 5 5 0
store flat 5 5 4097
store flat 256 256 0
store flat 256 256 16
store flat 255 256 16
store flat 5 6 16   # stands
layer direct 3 3 9 256
layer direct 3 3 9 255
layer direct 4 3 9 1
layer direct 4 16 9 1
layer direct 4 16 8 1
layer lru 32 1 1 1
layer lru 4 128 1 1
layer lru 4 1 0 1
layer lru 4 64 2 1
size
store flat 5 5 0
poke 15 2A
peek 16
poke 16 1
read 16
write 16 1
read 18446744073709551615
read 15
layer lru 4 1 2 1   # stands
read 15
read 16
write 16 1
read 15
chill
read 15
write 15 0
";

const REFUSALS_ANSWERED: &str = "store: refused 1 place 0 layer 1
store: refused 1 place 4097 layer 1
store: refused 1 place 0 layer 1
store: refused 3 place 1 layer 1
store: refused 3 place 2 layer 1
store: ok
layer: refused 3 place 1 layer 1
layer: refused 4 place 1 layer 1
layer: refused 4 place 2 layer 1
layer: refused 4 place 3 layer 1
layer: refused 4 place 4 layer 1
layer: refused 4 place 1 layer 1
layer: refused 4 place 2 layer 1
layer: refused 4 place 3 layer 1
layer: refused 4 place 4 layer 1
size: 16
store: refused 1 place 0 layer 1
poke: ok
peek: refused 9 place 16 layer 1
poke: refused 9 place 16 layer 1
read: refused 9 place 16 layer 1
write: refused 9 place 16 layer 1
read: refused 9 place 18446744073709551615 layer 1
read: 0000002a price 5
layer: ok
read: 0000002a price 6
read: refused 9 place 16 layer 1
write: refused 9 place 16 layer 1
read: 0000002a price 1
chill: ok
read: 0000002a price 6
write: price 7
";

// Answers a script, and compares.
fn answered<T: Stack<Lines, Flat> + Drop>(
    rt: &(impl Abort + AllocGlobal),
    script: &str,
    expected: &str,
) -> Result<(), Fail> {
    let mut out = Buffer::with_capacity(rt.alloc(), 4096)?;
    let mut session: Session<T> = Session::new();
    for line in TextLines::new(script.as_bytes()) {
        if answer_line(&mut session, rt.alloc(), line.words, &mut out).is_err() {
            return Err(Fail::new("the script stopped"));
        }
    }
    assert!(rt; out.as_slice() == expected.as_bytes());
    Ok(())
}

#[test]
fn refusals(rt: HostRuntime) -> Result<(), Fail> {
    answered::<Pile>(&rt, REFUSALS, REFUSALS_ANSWERED)
}
