// What is told of a run that ends before its threads.
use machine_model::{Stack, ThreadState};
use schedule_runner::unfinished;
use std::alloc::Global;
use std::test::Fail;

fn thread(alloc: Global, ended: bool) -> ThreadState {
    ThreadState {
        frames: Stack::new(alloc),
        own: None,
        ended,
    }
}

#[test]
fn unfinished_threads_are_told_by_their_numbers(rt: HostRuntime) -> Result<(), Fail> {
    let alloc = rt.alloc();
    let threads = [
        thread(alloc, true),
        thread(alloc, false),
        thread(alloc, true),
        thread(alloc, false),
    ];
    let numbers = unfinished(alloc, &threads).map_err(|_| "no memory")?;
    assert_eq!(rt; numbers.as_slice(), [1, 3].as_slice());
    Ok(())
}
