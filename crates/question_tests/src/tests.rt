// The numbers are worked by hand, from document 01's condition with the extra bytes and the jitter of document 02.
use questions::{flow_bits, flow_frames, port_fails};

const MOST: u32 = 4_294_967_295;

// Period, count, jitter, length of time, and the frames: count times the periods, rounded up.
#[test]
fn frames_of_a_flow(rt: HostRuntime) {
    for (period, count, jitter, widened, frames) in [
        (100_000, 2, 0, 200_000, 4),
        (100_000, 2, 0, 200_001, 6),
        (100_000, 2, 100_000, 200_000, 6),
        (100_000, 2, 100_001, 200_000, 8),
        (100_000, 0, 0, 200_000, 0),
        (0, 2, 0, 200_000, 0),
        (1, 65_535, MOST, MOST, 562_941_363_355_650),
    ] {
        assert_eq!(rt;
            flow_frames(period, count, jitter, widened),
            frames,
            "{period} {jitter} {widened}"
        );
    }
}

// Three periods of two frames, each of so many bytes; and what 64 bits do not hold.
#[test]
fn bits_of_a_flow(rt: HostRuntime) {
    for (bytes, extra, bits) in [
        (64, 0, 4_032),
        (64, 4, 4_224),
        (1_518, 0, 73_824),
        (0, 0, 960),
    ] {
        assert_eq!(rt;
            flow_bits(100_000, 2, bytes, 50_000, extra, 250_000),
            bits,
            "{bytes} {extra}"
        );
    }
    assert_eq!(rt; flow_bits(0, 2, 64, 0, 0, 250_000), 0);
    assert_eq!(rt;
        flow_bits(1, 65_535, 65_535, MOST, 255, MOST),
        18_446_744_073_709_551_615
    );
}

// Rate in Mbit/s, blocker, extra bytes, window in ns, demand in bits. In 100,000 ns a port of 100 Mbit/s sends 10,000 bits; a blocker of
// 1,518 bytes takes 12,304, and 12,336 with 4 more.
#[test]
fn ports_that_fail(rt: HostRuntime) {
    for (rate, blocking, extra, window, bits, fails) in [
        (100, 0, 0, 100_000, 10_000, false),
        (100, 0, 0, 100_000, 10_001, true),
        (100, 1_518, 0, 200_000, 7_696, false),
        (100, 1_518, 0, 200_000, 7_697, true),
        (100, 1_518, 4, 200_000, 7_664, false),
        (100, 1_518, 4, 200_000, 7_665, true),
        (100, 1_518, 0, 100_000, 0, false),
        (0, 0, 0, 0, 1, true),
        (1_000, 0, 0, u64::MAX, u64::MAX, false),
        (999, 0, 0, u64::MAX, u64::MAX, true),
        (1_000, 1, 0, u64::MAX, u64::MAX, true),
        (MOST, 65_535, 255, u64::MAX, u64::MAX, false),
    ] {
        assert_eq!(rt;
            port_fails(rate, blocking, extra, window, bits),
            fails,
            "{rate} {blocking} {extra} {window} {bits}"
        );
    }
}
