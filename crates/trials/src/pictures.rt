// Random and damaged pictures through check, read and write.
use memory::Memory;
use memory::chip::Chip;
use memory::lent::Picture;
use memory::pictures::{PictureFault, check_picture, write_picture};
use std::alloc::{AllocError, Global};
use std::process::Abort;
use std::test::Fail;
use tagged::refusals::Refusal;
use tagged::words::{Line, WordState};

fn next(seed: &mut u32) -> u32 {
    *seed = seed.wrapping_mul(1_664_525).wrapping_add(1_013_904_223);
    *seed / 256
}

fn random_line(seed: &mut u32) -> Line {
    let mut line = Line::blank();
    for (value, state) in line.values.iter_mut().zip(&mut line.states) {
        *value = next(seed).wrapping_mul(65_537);
        if next(seed) % 2 == 1 {
            *state = WordState::Full;
        }
    }
    line
}

fn random_lines(heap: Global, seed: &mut u32, count: u32) -> Result<Vec<Line>, AllocError> {
    (0..count).map(|_| random_line(seed)).collect(heap)
}

fn compare(rt: &impl Abort, memory: &impl Memory, lines: &[Line]) -> Result<(), Fail> {
    for (n, line) in (0..).zip(lines) {
        assert_eq!(rt; memory.read(n), *line, "a line is not read back");
    }
    let count = u32::try_from(lines.len())?;
    assert_eq!(rt; memory.line_count(), count);
    assert_eq!(rt;
        memory.read(count),
        Line::blank(),
        "past the end is not blank"
    );
    Ok(())
}

#[test]
fn random_pictures_read_back(rt: HostRuntime) -> Result<(), Fail> {
    let mut seed = 7;
    for round in 0..30u32 {
        let count = 1 + round * 3;
        let mut lines = random_lines(rt.alloc(), &mut seed, count)?;
        let mut buffer = vec![in rt.alloc(); 170; 2000]?;
        let length = write_picture(&lines, &mut buffer)?;
        assert_eq!(rt; length, 4 + 17 * count as usize);
        assert!(rt; length < buffer.len());
        for byte in &buffer[length..] {
            assert_eq!(rt; *byte, 170, "a byte after the picture changed");
        }
        assert_eq!(rt; check_picture(&buffer[..length])?, count);
        let mut memory = Picture::over(&mut buffer[..length]);
        compare(&rt, &memory, &lines)?;
        let n = next(&mut seed) % count;
        let line = random_line(&mut seed);
        memory.write(n, line);
        memory.write(count, line);
        if let Some(place) = lines.get_mut(n as usize) {
            *place = line;
        }
        compare(&rt, &memory, &lines)?;
    }
    Ok(())
}

// The number of lines that the check finds, or the number and the place of the fault.
fn told(bytes: &[u8]) -> Result<u32, (u8, usize)> {
    check_picture(bytes).map_err(|fault| (u8::from(Refusal::from(fault)), fault.place()))
}

#[test]
fn short_strings_are_refused(rt: HostRuntime) {
    let bytes = [1, 0, 0, 0, 9];
    for length in 0..4 {
        assert_eq!(rt; told(&bytes[..length]), Err((15, 0)));
    }
    assert_eq!(rt; told(&bytes[..4]), Err((16, 4)));
    assert_eq!(rt; told(&bytes), Err((16, 5)));
}

#[test]
fn line_counts_at_the_limits(rt: HostRuntime) -> Result<(), Fail> {
    let cases = [
        (0u32, 4usize, Err((15u8, 0usize))),
        (1, 21, Ok(1)),
        (1, 22, Err((16, 21))),
        (1, 20, Err((16, 20))),
        (2048, 34_820, Ok(2048)),
        (2048, 34_819, Err((16, 34_819))),
        (2048, 34_821, Err((16, 34_820))),
        (2049, 34_837, Err((15, 0))),
        (4_294_967_295, 64, Err((15, 0))),
    ];
    for (count, length, expected) in cases {
        let mut bytes = vec![in rt.alloc(); 0u8; length]?;
        assert!(rt; bytes.len() >= 4);
        bytes[..4].copy_from_slice(&count.to_le_bytes());
        assert_eq!(rt; told(&bytes), expected);
    }
    Ok(())
}

#[test]
fn damaged_states_are_placed(rt: HostRuntime) {
    let mut bytes = [0u8; 55];
    bytes[0] = 3;
    assert_eq!(rt; told(&bytes), Ok(3));
    // A value may be any byte; of two bad state bytes the first is told.
    bytes[51] = 255;
    assert_eq!(rt; told(&bytes), Ok(3));
    bytes[54] = 16;
    assert_eq!(rt; told(&bytes), Err((17, 54)));
    bytes[52] = 240;
    assert_eq!(rt; told(&bytes), Err((17, 52)));
    bytes[52] = 15;
    bytes[54] = 15;
    assert_eq!(rt; told(&bytes), Ok(3));
}

#[test]
fn refused_bytes_are_a_memory_without_lines(rt: HostRuntime) {
    let mut bytes = [3u8; 20];
    let mut memory = Picture::over(&mut bytes);
    assert_eq!(rt; memory.line_count(), 0);
    memory.write(0, Line::blank());
    assert_eq!(rt; memory.read(0), Line::blank());
    assert_eq!(rt; bytes, [3u8; 20]);
}

#[test]
fn chip_has_64_lines(rt: HostRuntime) {
    let mut seed = 3;
    let mut chip = Chip::new();
    assert_eq!(rt; chip.line_count(), 64);
    let line = random_line(&mut seed);
    for n in 0..66 {
        assert_eq!(rt; chip.read(n), Line::blank());
    }
    chip.write(63, line);
    chip.write(64, line);
    assert_eq!(rt; chip.read(63), line);
    assert_eq!(rt; chip.read(62), Line::blank());
    assert_eq!(rt; chip.read(64), Line::blank());
}
