// A memory written as docs/PICTURE.md says, outside the crate of memories: only its count's 16 bits bound its lines, which no
// law over all values of the type could rest on.
ghost use Rattle.std.specs.Prelude.{◌≡◌, take};

use memory::Memory;
use tagged::words::Line;

// The first `count` lines of a lent slice.
#[derive(Drop)]
struct Window<'a> {
    lines: &'a mut [Line],
    count: u16,
}

impl Memory for Window<'_> {
    ghost lines = { λ m. take m.count m.lines.now };

    fn line_count(&self) -> u32 {
        self.lines.len().min(self.count as usize) as u32
    }

    fn read(&self, n: u32) -> Line {
        if n < self.count as u32 {
            self.lines.get(n as usize).copied().unwrap_or(Line::blank())
        } else {
            Line::blank()
        }
    }

    fn write(&mut self, n: u32, line: Line) {
        let n = n as usize;
        if n < self.count as usize && n < self.lines.len() {
            self.lines[n] = line;
        }
    }
}

#[test]
fn window_is_a_memory(rt: HostRuntime) {
    let mut lines = [Line::blank(); 3];
    let line = Line {
        values: [1, 2, 3, 4],
        ..Line::blank()
    };
    let mut window = Window {
        lines: &mut lines,
        count: 2,
    };
    assert_eq!(rt; window.line_count(), 2);
    window.write(1, line);
    window.write(2, line);
    assert_eq!(rt; window.read(1), line);
    assert_eq!(rt; window.read(2), Line::blank());
    assert_eq!(rt; lines, [Line::blank(), line, Line::blank()]);
}
