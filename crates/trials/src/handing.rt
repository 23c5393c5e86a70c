// The hand-over: how many faces are asked for, what is handed over, and what is printed.
use mould::exchange::{Handed, carry_out};
use mould::plan::{Face, face_count, first_faces};
use mould::report::{Totals, each_kept};
use std::test::Fail;

#[test]
fn counts_are_read_or_refused(rt: HostRuntime) {
    let good = [
        ("0", 0),
        ("1", 1),
        ("007", 7),
        ("+5", 5),
        ("4000", 4000),
        ("100000", 100_000),
    ];
    for (text, count) in good {
        assert_eq!(rt; face_count(text), Some(count));
    }
    let bad = [
        "",
        " 1",
        "1 ",
        "-1",
        "1.5",
        "x",
        "12x",
        "100001",
        "4294967296",
        "99999999999999999999",
    ];
    for text in bad {
        assert_eq!(rt; face_count(text), None, "{}", text);
    }
}

#[test]
fn four_thousand_faces_keep_their_tolerances(rt: HostRuntime) -> Result<(), Fail> {
    let faces = first_faces(rt.alloc(), 4000)?;
    let handed = carry_out(rt.alloc(), &faces)?;
    let totals = Totals::of(&faces, &handed);
    assert_eq!(rt;
        totals,
        Totals {
            faces: 4000,
            requests: 8000,
            kept: true,
        }
    );
    Ok(())
}

#[test]
fn lost_tolerance_is_seen(rt: HostRuntime) {
    let faces = [
        Face {
            number: 1,
            tolerance: 6,
        },
        Face {
            number: 2,
            tolerance: 7,
        },
    ];
    let first = Handed {
        face: Face {
            number: 1,
            tolerance: 6,
        },
        filled: 1,
        taken: 2,
    };
    let second = Handed {
        face: Face {
            number: 2,
            tolerance: 7,
        },
        filled: 3,
        taken: 4,
    };
    let wrong = Handed {
        face: Face {
            tolerance: 6,
            ..second.face
        },
        ..second
    };
    assert!(rt; each_kept(&faces, &[first, second]));
    assert!(rt; !each_kept(&faces, &[first, wrong]));
    assert!(rt; !each_kept(&faces, &[second, first]));
    assert!(rt; !each_kept(&faces, &[first]));
}

#[test]
fn lines_read_as_sentences(rt: HostRuntime) -> Result<(), Fail> {
    let one = Handed {
        face: Face {
            number: 3,
            tolerance: 8,
        },
        filled: 5,
        taken: 6,
    };
    let line = one.to_string(rt.alloc())?;
    assert_eq!(rt;
        line.as_str(),
        "face 3: tolerance 8, filled by request 5, taken by request 6"
    );
    let bad = Totals {
        faces: 2,
        requests: 4,
        kept: false,
    };
    let line = bad.to_string(rt.alloc())?;
    assert_eq!(rt;
        line.as_str(),
        "2 faces, 4 requests: a face lost its tolerance"
    );
    Ok(())
}
