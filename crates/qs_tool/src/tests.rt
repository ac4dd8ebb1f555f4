//! What the program prints.

use qs_cli::{Status, run_frames};
use std::alloc::Global;
use std::process::Abort;
use std::test::Fail;

mod play_text;
mod requests;
mod scripts;
mod wires;
mod writers;

/// The run on the word ends so and writes the text.
fn shows(rt: &impl Abort, alloc: Global, word: &str, status: Status, text: &str) {
    let mut out = Vec::new(alloc);
    assert!(rt;
        run_frames(alloc, word, &mut out) == status,
        "status of {word:?}"
    );
    assert!(rt; out.as_slice() == text.as_bytes(), "text of {word:?}");
}

#[test]
fn a_stream_frame_with_its_end(rt: HostRuntime) {
    let text = "0 STREAM stream=0 offset=0 fin=yes bytes=616263\ncanonical 0b0003616263\n";
    shows(&rt, rt.alloc(), "0b0003616263", Status::Success, text);
}

#[test]
fn a_stream_frame_without_a_length(rt: HostRuntime) {
    let text = "0 STREAM stream=0 offset=0 fin=no bytes=616263\ncanonical 0a0003616263\n";
    shows(&rt, rt.alloc(), "0800616263", Status::Success, text);
}

#[test]
fn an_offset_of_zero_is_left_out(rt: HostRuntime) {
    let text = "0 STREAM stream=0 offset=0 fin=no bytes=61\ncanonical 0a000161\n";
    shows(&rt, rt.alloc(), "0e00000161", Status::Success, text);
}

#[test]
fn an_empty_payload_and_padding(rt: HostRuntime) {
    let text = "fault 1 place 0 code 0x0a type 0x00\n";
    shows(&rt, rt.alloc(), "", Status::FaultShown, text);
    shows(
        &rt,
        rt.alloc(),
        "00",
        Status::Success,
        "0 PADDING\ncanonical 00\n",
    );
}

#[test]
fn frames_before_a_fault_are_shown(rt: HostRuntime) {
    let text = "0 PING\nfault 4 place 1 code 0x07 type 0x0a\n";
    shows(&rt, rt.alloc(), "010a00056162", Status::FaultShown, text);
}

#[test]
fn a_fault_alone(rt: HostRuntime) {
    let faults = [
        ("4001", "fault 2 place 0 code 0x0a type 0x01\n"),
        ("401f", "fault 2 place 0 code 0x0a type 0x1f\n"),
        ("1f", "fault 3 place 0 code 0x07 type 0x1f\n"),
        ("40", "fault 4 place 0 code 0x07 type 0x00\n"),
        ("0a00056162", "fault 4 place 0 code 0x07 type 0x0a\n"),
        (
            "0e00ffffffffffffffff0161",
            "fault 5 place 0 code 0x07 type 0x0e\n",
        ),
        (
            "0c00ffffffffffffffff61",
            "fault 5 place 0 code 0x07 type 0x0c\n",
        ),
        (
            "06ffffffffffffffff0161",
            "fault 5 place 0 code 0x07 type 0x06\n",
        ),
        (
            "12d000000000000001",
            "fault 6 place 0 code 0x07 type 0x12\n",
        ),
        (
            "17d000000000000001",
            "fault 6 place 0 code 0x07 type 0x17\n",
        ),
        ("0201000002", "fault 7 place 0 code 0x07 type 0x02\n"),
        ("18010000", "fault 8 place 0 code 0x07 type 0x18\n"),
        ("18010015", "fault 8 place 0 code 0x07 type 0x18\n"),
    ];
    for (word, text) in faults {
        shows(&rt, rt.alloc(), word, Status::FaultShown, text);
    }
}

/// The payload is canonical and its one frame is shown so.
fn shows_frame(rt: &impl Abort, alloc: Global, word: &str, frame: &str) -> Result<(), Fail> {
    let text = format!(in alloc; "0 {frame}\ncanonical {word}\n")?;
    shows(rt, alloc, word, Status::Success, text.as_str());
    Ok(())
}

#[test]
fn acknowledgements_and_resets(rt: HostRuntime) -> Result<(), Fail> {
    let frames = [
        ("01", "PING"),
        ("02050001010001", "ACK delay=0 ranges=4..5,1..2"),
        ("0305000001010203", "ACK delay=0 ranges=4..5 ecn=1,2,3"),
        ("04000704", "RESET_STREAM stream=0 code=7 final=4"),
        ("050007", "STOP_SENDING stream=0 code=7"),
        ("1c030a00", "CONNECTION_CLOSE code=3 type=0x0a reason=-"),
        ("1d05026f6b", "APPLICATION_CLOSE code=5 reason=6f6b"),
    ];
    for (word, frame) in frames {
        shows_frame(&rt, rt.alloc(), word, frame)?;
    }
    Ok(())
}

#[test]
fn limits(rt: HostRuntime) -> Result<(), Fail> {
    let frames = [
        ("1008", "MAX_DATA max=8"),
        ("110005", "MAX_STREAM_DATA stream=0 max=5"),
        (
            "12d000000000000000",
            "MAX_STREAMS dir=bidi count=1152921504606846976",
        ),
        ("1303", "MAX_STREAMS dir=uni count=3"),
        ("1404", "DATA_BLOCKED limit=4"),
        ("15000a", "STREAM_DATA_BLOCKED stream=0 limit=10"),
        ("1601", "STREAMS_BLOCKED dir=bidi count=1"),
        ("1702", "STREAMS_BLOCKED dir=uni count=2"),
    ];
    for (word, frame) in frames {
        shows_frame(&rt, rt.alloc(), word, frame)?;
    }
    Ok(())
}

#[test]
fn frames_for_the_layer_beneath(rt: HostRuntime) -> Result<(), Fail> {
    let frames = [
        ("06000161", "CRYPTO offset=0 bytes=61"),
        ("070161", "NEW_TOKEN token=61"),
        (
            "1805020241ff000102030405060708090a0b0c0d0e0f",
            "NEW_CONNECTION_ID seq=5 retire=2 id=41ff token=000102030405060708090a0b0c0d0e0f",
        ),
        ("1902", "RETIRE_CONNECTION_ID seq=2"),
        (
            "1a0001020304050607",
            "PATH_CHALLENGE bytes=0001020304050607",
        ),
        ("1b08090a0b0c0d0e0f", "PATH_RESPONSE bytes=08090a0b0c0d0e0f"),
        ("1e", "HANDSHAKE_DONE"),
    ];
    for (word, frame) in frames {
        shows_frame(&rt, rt.alloc(), word, frame)?;
    }
    Ok(())
}

#[test]
fn the_greatest_offset(rt: HostRuntime) -> Result<(), Fail> {
    let frame = "STREAM stream=0 offset=4611686018427387903 fin=no bytes=-";
    shows_frame(&rt, rt.alloc(), "0e00ffffffffffffffff00", frame)
}

#[test]
fn numbers_are_spelled_shortest(rt: HostRuntime) {
    let text = "0 MAX_STREAM_DATA stream=0 max=5\ncanonical 110005\n";
    shows(&rt, rt.alloc(), "11400005", Status::Success, text);
    let text = "0 CONNECTION_CLOSE code=3 type=0x0a reason=-\ncanonical 1c030a00\n";
    shows(&rt, rt.alloc(), "1c03400a00", Status::Success, text);
}

#[test]
fn bad_hex_writes_nothing(rt: HostRuntime) {
    shows(&rt, rt.alloc(), "0", Status::BadUsage, "");
    shows(&rt, rt.alloc(), "0g", Status::BadUsage, "");
    shows(&rt, rt.alloc(), "-", Status::BadUsage, "");
}

/// The word that spells so many bytes 00.
fn zeros(alloc: Global, count: usize) -> Result<String, Fail> {
    let mut word = String::new(alloc);
    for _ in 0..count {
        word.push_str("00")?;
    }
    Ok(word)
}

#[test]
fn at_most_65535_bytes(rt: HostRuntime) -> Result<(), Fail> {
    let mut out = Vec::new(rt.alloc());
    let word = zeros(rt.alloc(), 65_535)?;
    assert!(rt; run_frames(rt.alloc(), word.as_str(), &mut out) == Status::Success);
    let word = zeros(rt.alloc(), 65_536)?;
    shows(&rt, rt.alloc(), word.as_str(), Status::BadUsage, "");
    Ok(())
}
