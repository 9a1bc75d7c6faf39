//! Scripts that are made, and others on few turns.
use crate::tests::scripts::{NOWHERE, prints};
use assise_console::options::CommandLine;
use std::alloc::{AllocError, Global};
use std::test::Fail;

/// What a script prints whose frame comes once its link is whole.
const LATE: &str = "\
3: client 1
4: linked 1
5: done
6: wait
7: carried 0
8: linked 1
9: carried 1
10: done
";

/// What it prints where the link lets the whole frame through, which has 66 bytes.
const AT_ONCE: &str = "\
3: client 1
4: linked 1
5: done
6: wait
7: carried 1
8: linked 1
9: carried 0
10: done
";

fn cut_script(alloc: Global, most: u32) -> Result<String, AllocError> {
    format!(in alloc;
        "\
cluster 2 8 4
manual
open 1 least
link 1 cut {most}
1 create /f
1 fsync
carry 1
link 1 perfect
carry 1
1 fsync
"
    )
}

#[test]
fn a_frame_that_is_cut_comes_once_the_link_is_whole(rt: HostRuntime) -> Result<(), Fail> {
    for most in 0..67 {
        let script = cut_script(rt.alloc(), most)?;
        let wanted = if most < 66 { LATE } else { AT_ONCE };
        assert!(rt; prints(rt.alloc(), script.as_str(), wanted, &NOWHERE)?);
    }
    Ok(())
}

/// The root gets 4,096 entries, and no more.
fn full_script(alloc: Global) -> Result<String, AllocError> {
    let mut script = String::from_str(alloc, "cluster 1 4096 16\nopen 1 least\n")?;
    for number in 0..4096u32 {
        writeln!(script, "1 create /f{number}")?;
    }
    script.push_str("1 create /x\n")?;
    Ok(script)
}

fn full_answers(alloc: Global) -> Result<String, AllocError> {
    let mut wanted = String::from_str(alloc, "2: client 1\n")?;
    for line in 3..4099u32 {
        writeln!(wanted, "{line}: done")?;
    }
    wanted.push_str("4099: E8 DirFull\n")?;
    Ok(wanted)
}

#[test]
fn a_directory_is_full_with_4096_entries(rt: HostRuntime) -> Result<(), Fail> {
    let script = full_script(rt.alloc())?;
    let wanted = full_answers(rt.alloc())?;
    assert!(rt; prints(rt.alloc(), script.as_str(), wanted.as_str(), &NOWHERE)?);
    Ok(())
}

/// A node that sends what the other doesn't read is waited for in vain.
const RAISED: &str = "cluster 2 8 4\nopen 1 least\nraise 1\n1 create /f\n1 fsync\n";

#[test]
fn a_call_is_busy_once_its_tries_are_spent(rt: HostRuntime) -> Result<(), Fail> {
    let three_tries = CommandLine {
        turns: 3,
        ..NOWHERE
    };
    let wanted = "2: client 1\n3: raised 1\n4: done\n5: F2 Busy\n";
    assert!(rt; prints(rt.alloc(), RAISED, wanted, &three_tries)?);
    Ok(())
}
