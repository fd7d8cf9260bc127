// Cases of the rules, and cases at the edges of both memory modules.
use memory::{Counts, Lazy, Memory, Prompt, Refusal, store_word};
use std::process::Abort;
use std::test::Fail;

// Checks how many lines are asked, due and late.
fn on_their_way<M: Memory>(rt: &impl Abort, module: &M, asked: u32, due: u32, late: u32) {
    assert_eq!(rt; module.counts(), Counts { asked, due, late });
}

// Checks that a module has that many lines and refuses what lies past them, and stores 6 in its last word.
fn ends_after<M: Memory>(rt: &impl Abort, module: &mut M, lines: u8) -> Result<(), Fail> {
    let end = lines as usize;
    assert_eq!(rt; module.lines(), end);
    for past in [end, end + 1, u64::MAX as usize] {
        assert_eq!(rt; module.ask(past), Err(Refusal::Outside));
        assert_eq!(rt; module.arrive(past), Err(Refusal::Outside));
    }
    for past in [8 * end, 8 * end + 7, u64::MAX as usize] {
        assert_eq!(rt; module.read(past), Err(Refusal::Outside));
        assert_eq!(rt; module.write(past, 1), Err(Refusal::Outside));
    }
    if end > 0 {
        module.write(8 * end - 1, 6)?;
        module.ask(end - 1)?;
        module.sync();
    }
    on_their_way(rt, module, 0, 0, 0);
    Ok(())
}

#[test]
fn a_cut_loses_what_has_not_arrived(rt: HostRuntime) -> Result<(), Fail> {
    let mut words = [0; 16];
    let mut module = Lazy::new(&mut words);
    module.write(8, 5)?;
    assert_eq!(rt; module.read(8)?, 5);
    module.cut();
    assert_eq!(rt; module.read(8)?, 0);
    module.write(8, 5)?;
    module.ask(1)?;
    module.sync();
    module.cut();
    assert_eq!(rt; module.read(8)?, 5);
    module.write(0, 7)?;
    assert_eq!(rt; words[0], 0);
    assert_eq!(rt; words[8], 5);
    Ok(())
}

#[test]
fn a_late_line_waits_for_the_due_ones(rt: HostRuntime) -> Result<(), Fail> {
    let mut words = [0; 16];
    let mut module = Lazy::new(&mut words);
    module.write(8, 5)?;
    module.ask(1)?;
    on_their_way(&rt, &module, 1, 0, 0);
    module.fence();
    module.write(0, 4)?;
    on_their_way(&rt, &module, 0, 1, 1);
    assert_eq!(rt; module.arrive(0), Err(Refusal::NotAllowed));
    on_their_way(&rt, &module, 0, 1, 1);
    module.arrive(1)?;
    on_their_way(&rt, &module, 0, 0, 0);
    module.arrive(0)?;
    module.cut();
    assert_eq!(rt; module.read(0)?, 4);
    Ok(())
}

#[test]
fn a_write_to_a_due_line_lets_all_due_lines_arrive(rt: HostRuntime) -> Result<(), Fail> {
    let mut words = [0; 24];
    let mut module = Lazy::new(&mut words);
    module.fence();
    on_their_way(&rt, &module, 0, 0, 0);
    module.write(0, 1)?;
    module.write(8, 2)?;
    module.ask(0)?;
    module.ask(1)?;
    module.fence();
    module.write(16, 3)?;
    on_their_way(&rt, &module, 0, 2, 1);
    module.write(9, 4)?;
    on_their_way(&rt, &module, 0, 0, 0);
    module.cut();
    assert_eq!(rt; module.read(0)?, 1);
    assert_eq!(rt; module.read(8)?, 2);
    assert_eq!(rt; module.read(9)?, 0);
    assert_eq!(rt; module.read(16)?, 0);
    Ok(())
}

#[test]
fn only_whole_lines_are_held(rt: HostRuntime) -> Result<(), Fail> {
    ends_after(&rt, &mut Lazy::new(&mut []), 0)?;
    ends_after(&rt, &mut Lazy::new(&mut [9; 7]), 0)?;
    ends_after(&rt, &mut Prompt::new(&mut [9; 15]), 1)?;
    let mut full = [9; 512];
    ends_after(&rt, &mut Lazy::new(&mut full), 64)?;
    assert_eq!(rt; full[511], 6);
    let mut long = [9; 523];
    ends_after(&rt, &mut Lazy::new(&mut long), 64)?;
    ends_after(&rt, &mut Prompt::new(&mut long), 64)?;
    assert_eq!(rt; long[511], 6);
    store_word(&mut long, 0, 3)?;
    assert_eq!(rt; long[0], 3);
    assert_eq!(rt; store_word(&mut long, 512, 1), Err(Refusal::Outside));
    assert!(rt; long[512..] == [9; 11]);
    Ok(())
}

#[test]
fn prompt_keeps_what_is_written(rt: HostRuntime) -> Result<(), Fail> {
    let mut words = [0; 16];
    let mut module = Prompt::new(&mut words);
    module.write(8, 5)?;
    on_their_way(&rt, &module, 0, 0, 0);
    module.ask(0)?;
    module.fence();
    module.write(0, 3)?;
    module.arrive(0)?;
    on_their_way(&rt, &module, 0, 0, 0);
    module.cut();
    assert_eq!(rt; module.read(8)?, 5);
    assert_eq!(rt; words[0], 3);
    Ok(())
}
