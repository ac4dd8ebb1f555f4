//! What scripts are answered with.

use qs_cli::{Status, run_events, run_play, run_play_with, run_random};
use qs_world::{Settings, parse_script, random_script, standard_settings};
use std::alloc::Global;
use std::process::Abort;
use std::test::Fail;

/// Playing the script ends so and writes the text.
fn plays(rt: &impl Abort, alloc: Global, script: &[u8], status: Status, text: &str) {
    let mut out = Vec::new(alloc);
    assert!(rt;
        run_play(alloc, script, &mut out) == status,
        "status of {script:?}"
    );
    assert!(rt; out.as_slice() == text.as_bytes(), "text of {script:?}");
}

/// A packet is lost, and its bytes are sent again (RFC 9000, section 13.3).
const LOST_SCRIPT: &[u8] = b"\
open A bidi
write A 0 68656c6c6f
finish A 0
make A 1200
lose A 0
make A 1200
deliver A 1
deliver A 0
accept B
read B 0 16
read B 0 16
make B 1200
deliver B 0
";

const LOST_AND_SENT_AGAIN: &str = "\
open A bidi -> stream 0
write A 0 68656c6c6f -> wrote 5
finish A 0 -> ok
make A 1200 -> packet 0 0b000568656c6c6f
lose A 0 -> ok
make A 1200 -> packet 1 0b000568656c6c6f
deliver A 1 -> done
deliver A 0 -> done
accept B -> stream 0
read B 0 16 -> bytes 68656c6c6f
read B 0 16 -> end
make B 1200 -> packet 0 0201000001
deliver B 0 -> done
lane A 0 written 5 read 5 received yes declared 5 known 5
lane B 0 written 0 read 0 received no declared none known none
end A spent 0 granted 4096 stored 0
end B spent 5 granted 4096 stored 0
";

#[test]
fn a_lost_packet_is_played(rt: HostRuntime) {
    plays(
        &rt,
        rt.alloc(),
        LOST_SCRIPT,
        Status::Success,
        LOST_AND_SENT_AGAIN,
    );
}

/// The packet that is declared lost arrives, and the one that took its place doesn't (RFC 9000, section 13.3).
const LATE_SCRIPT: &[u8] = b"\
open A bidi
write A 0 68656c6c6f
finish A 0
make A 1200
lose A 0
make A 1200
deliver A 0
accept B
read B 0 16
read B 0 16
make B 1200
deliver B 0
";

const LATE: &str = "\
open A bidi -> stream 0
write A 0 68656c6c6f -> wrote 5
finish A 0 -> ok
make A 1200 -> packet 0 0b000568656c6c6f
lose A 0 -> ok
make A 1200 -> packet 1 0b000568656c6c6f
deliver A 0 -> done
accept B -> stream 0
read B 0 16 -> bytes 68656c6c6f
read B 0 16 -> end
make B 1200 -> packet 0 0200000000
deliver B 0 -> done
lane A 0 written 5 read 5 received yes declared 5 known 5
lane B 0 written 0 read 0 received no declared none known none
end A spent 0 granted 4096 stored 0
end B spent 5 granted 4096 stored 0
";

#[test]
fn an_acknowledgement_of_a_lost_packet_comes_late(rt: HostRuntime) {
    plays(&rt, rt.alloc(), LATE_SCRIPT, Status::Success, LATE);
}

const CLAIMING_SCRIPT: &[u8] = b"\
claim A
open A bidi
write A 0 6869
make A 1200
deliver A 1
deliver A 0
deliver A 0
make B 1200
deliver B 0
lose A 0
claim B
deliver B 1
make A 1200
";

/// A PING goes under a claimed number. It may come late and twice, and is acknowledged like any other packet; nothing of it is outstanding
/// (RFC 9000, sections 12.3, 13.1 and 19.2).
const CLAIMING: &str = "\
claim A -> number 0
open A bidi -> stream 0
write A 0 6869 -> wrote 2
make A 1200 -> packet 1 0a00026869
deliver A 1 -> done
deliver A 0 -> done
deliver A 0 -> duplicate
make B 1200 -> packet 0 0201000001
deliver B 0 -> done
lose A 0 -> not-outstanding
claim B -> number 1
deliver B 1 -> done
make A 1200 -> packet 2 0201000001
lane A 0 written 2 read 0 received no declared none known none
lane B 0 written 0 read 0 received no declared none known none
end A spent 0 granted 4096 stored 0
end B spent 2 granted 4096 stored 2
";

#[test]
fn a_number_is_claimed(rt: HostRuntime) {
    plays(&rt, rt.alloc(), CLAIMING_SCRIPT, Status::Success, CLAIMING);
}

const OVERTAKING_SCRIPT: &[u8] = b"\
open A bidi
write A 0 616263
make A 1200
reset A 0 7
make A 1200
deliver A 1
deliver A 0
read B 0 16
make B 1200
deliver B 0
";

/// The bytes that come after the reset are counted and thrown away (RFC 9000, section 3.2).
const OVERTAKING: &str = "\
open A bidi -> stream 0
write A 0 616263 -> wrote 3
make A 1200 -> packet 0 0a0003616263
reset A 0 7 -> ok
make A 1200 -> packet 1 04000703
deliver A 1 -> done
deliver A 0 -> done
read B 0 16 -> reset 7
make B 1200 -> packet 0 0201000001
deliver B 0 -> done
lane A 0 written 3 read 0 received no declared 3 known 3
lane B 0 written 0 read 0 received no declared none known none
end A spent 0 granted 4096 stored 0
end B spent 3 granted 4096 stored 0
";

#[test]
fn a_reset_overtakes_its_bytes(rt: HostRuntime) {
    plays(
        &rt,
        rt.alloc(),
        OVERTAKING_SCRIPT,
        Status::Success,
        OVERTAKING,
    );
}

const OPENING_SCRIPT: &[u8] = b"\
open A uni
open A uni
write A 2 6869
finish A 2
make A 1200
deliver A 0
read B 2 16
read B 2 16
make B 1200
lose B 0
make B 1200
deliver B 1
open A uni
open A uni
make A 1200
";

/// One stream may be open at first, and a second one once the first has come to its end, which the peer is told again after a loss (RFC
/// 9000, sections 4.6 and 13.3).
const OPENING: &str = "\
open A uni -> stream 2
open A uni -> blocked 1
write A 2 6869 -> wrote 2
finish A 2 -> ok
make A 1200 -> packet 0 17010b02026869
deliver A 0 -> done
read B 2 16 -> bytes 6869
read B 2 16 -> end
make B 1200 -> packet 0 02000000001302
lose B 0 -> ok
make B 1200 -> packet 1 1302
deliver B 1 -> done
open A uni -> stream 6
open A uni -> blocked 2
make A 1200 -> packet 1 02010000001702
";

#[test]
fn a_stream_more_for_one_that_ended(rt: HostRuntime) {
    let settings = Settings {
        grant_bidi: 1,
        grant_uni: 1,
        lifetime_bidi: 2,
        lifetime_uni: 2,
        ..standard_settings()
    };
    let mut out = Vec::new(rt.alloc());
    let answer = run_play_with(rt.alloc(), settings, OPENING_SCRIPT, &mut out);
    assert!(rt; answer == Status::Success);
    assert!(rt; out.starts_with(OPENING.as_bytes()));
}

const NOTHING_HAPPENED: &str = "\
end A spent 0 granted 4096 stored 0
end B spent 0 granted 4096 stored 0
";

#[test]
fn a_script_without_events(rt: HostRuntime) {
    plays(&rt, rt.alloc(), b"", Status::Success, NOTHING_HAPPENED);
    plays(
        &rt,
        rt.alloc(),
        b"# none\n\n",
        Status::Success,
        NOTHING_HAPPENED,
    );
    let mut out = Vec::new(rt.alloc());
    let answer = run_events(rt.alloc(), standard_settings(), &[], &mut out);
    assert!(rt; answer == Status::Success);
    assert!(rt; out.as_slice() == NOTHING_HAPPENED.as_bytes());
}

#[test]
fn the_fault_of_a_script_is_named(rt: HostRuntime) {
    let faults: [(&[u8], &str); 9] = [
        (b"accept B\naccept C\n", "fault: line 2 reason 3\n"),
        (b"# none\n\nmake A 127\n", "fault: line 3 reason 6\n"),
        (b"jump A", "fault: line 1 reason 1\n"),
        (b"read A 0", "fault: line 1 reason 2\n"),
        (b"open C bidi", "fault: line 1 reason 3\n"),
        (b"open A both", "fault: line 1 reason 4\n"),
        (b"lose A x", "fault: line 1 reason 5\n"),
        (b"make A 127", "fault: line 1 reason 6\n"),
        (b"write A 0 abc", "fault: line 1 reason 7\n"),
    ];
    for (script, text) in faults {
        plays(&rt, rt.alloc(), script, Status::FaultShown, text);
    }
}

#[test]
fn a_packet_that_was_not_made_is_named(rt: HostRuntime) {
    let text = "fault: no such packet at event 1\n";
    plays(&rt, rt.alloc(), b"deliver A 0", Status::FaultShown, text);
    let text = "fault: no such packet at event 2\n";
    plays(
        &rt,
        rt.alloc(),
        b"accept B\n\ndeliver A 0\n",
        Status::FaultShown,
        text,
    );
}

#[test]
fn a_random_script_of_no_events(rt: HostRuntime) {
    let mut out = Vec::new(rt.alloc());
    assert!(rt; run_random(rt.alloc(), 1, 0, &mut out) == Status::Success);
    assert!(rt; out.is_empty());
}

#[test]
fn a_printed_random_script_is_read_as_its_events(rt: HostRuntime) -> Result<(), Fail> {
    let mut out = Vec::new(rt.alloc());
    assert!(rt; run_random(rt.alloc(), 808, 200, &mut out) == Status::Success);
    let events = random_script(rt.alloc(), 808, 200)?;
    assert!(rt; events.len() == 200);
    match parse_script(rt.alloc(), &out) {
        Ok(read) => assert!(rt; read == events),
        Err(fault) => panic!(rt; "{fault}"),
    }
    Ok(())
}

#[test]
fn a_writer_that_fails(rt: HostRuntime) {
    let mut room = [0; 8];
    let mut out = room.as_mut_slice();
    assert!(rt; run_play(rt.alloc(), b"knock A", &mut out) == Status::Failed);
    let mut room = [0; 8];
    let mut out = room.as_mut_slice();
    assert!(rt; run_play(rt.alloc(), b"", &mut out) == Status::Failed);
    let mut room = [0; 8];
    let mut out = room.as_mut_slice();
    assert!(rt; run_random(rt.alloc(), 1, 9, &mut out) == Status::Failed);
}
