//! Generated problems.

use plan_gen::{Memory, problem_text};
use std::alloc::Global;

/// A problem that another program made. Line feeds in the text stand for nothing.
#[derive(Clone, Copy)]
struct Case {
    number: u32,
    size: u32,
    text: &'static str,
}

const CASES: [Case; 6] = [
    Case {
        number: 0,
        size: 1,
        text: r#"{"domain":"timetable","facts":{"lesson":[
{"group":"G0","id":1,"size":20,"subject":"S0","teacher":"T0"}
],"room":[
{"capacity":30,"id":1}
],"timeslot":[
{"day":1,"end":540,"id":1,"start":480}]},"format":1,"settings":{"seed":0,"steps":5}}"#,
    },
    Case {
        number: 4294967295,
        size: 3,
        text: r#"{"domain":"timetable","facts":{"lesson":[
{"group":"G0","id":1,"size":29,"subject":"S1","teacher":"T0"},
{"group":"G0","id":2,"size":30,"subject":"S1","teacher":"T0"},
{"group":"G0","id":3,"size":24,"subject":"S0","teacher":"T0"}
],"room":[
{"capacity":30,"id":1}
],"timeslot":[
{"day":1,"end":540,"id":1,"start":480},
{"day":1,"end":600,"id":2,"start":540},
{"day":1,"end":660,"id":3,"start":600}]},"format":1,"settings":{"seed":4294967295,"steps":15}}"#,
    },
    Case {
        number: 7,
        size: 20,
        text: r#"{"domain":"timetable","facts":{"lesson":[
{"group":"G0","id":1,"size":17,"subject":"S4","teacher":"T0"},
{"group":"G0","id":2,"size":29,"subject":"S3","teacher":"T1"},
{"group":"G0","id":3,"size":18,"subject":"S1","teacher":"T1"},
{"group":"G0","id":4,"size":17,"subject":"S6","teacher":"T0"},
{"group":"G0","id":5,"size":19,"subject":"S1","teacher":"T0"},
{"group":"G0","id":6,"size":25,"subject":"S4","teacher":"T1"},
{"group":"G0","id":7,"size":16,"subject":"S5","teacher":"T0"},
{"group":"G0","id":8,"size":29,"subject":"S2","teacher":"T0"},
{"group":"G0","id":9,"size":18,"subject":"S2","teacher":"T0"},
{"group":"G0","id":10,"size":19,"subject":"S3","teacher":"T0"},
{"group":"G0","id":11,"size":28,"subject":"S7","teacher":"T0"},
{"group":"G0","id":12,"size":15,"subject":"S6","teacher":"T0"},
{"group":"G0","id":13,"size":30,"subject":"S2","teacher":"T1"},
{"group":"G0","id":14,"size":29,"subject":"S5","teacher":"T1"},
{"group":"G0","id":15,"size":21,"subject":"S2","teacher":"T1"},
{"group":"G0","id":16,"size":23,"subject":"S5","teacher":"T0"},
{"group":"G0","id":17,"size":23,"subject":"S4","teacher":"T1"},
{"group":"G0","id":18,"size":20,"subject":"S2","teacher":"T1"},
{"group":"G0","id":19,"size":24,"subject":"S0","teacher":"T0"},
{"group":"G0","id":20,"size":20,"subject":"S2","teacher":"T0"}
],"room":[
{"capacity":30,"id":1}
],"timeslot":[
{"day":1,"end":540,"id":1,"start":480},
{"day":1,"end":600,"id":2,"start":540},
{"day":1,"end":660,"id":3,"start":600},
{"day":1,"end":720,"id":4,"start":660},
{"day":1,"end":780,"id":5,"start":720},
{"day":1,"end":840,"id":6,"start":780},
{"day":1,"end":900,"id":7,"start":840},
{"day":1,"end":960,"id":8,"start":900},
{"day":2,"end":540,"id":9,"start":480},
{"day":2,"end":600,"id":10,"start":540},
{"day":2,"end":660,"id":11,"start":600},
{"day":2,"end":720,"id":12,"start":660},
{"day":2,"end":780,"id":13,"start":720},
{"day":2,"end":840,"id":14,"start":780},
{"day":2,"end":900,"id":15,"start":840},
{"day":2,"end":960,"id":16,"start":900},
{"day":3,"end":540,"id":17,"start":480},
{"day":3,"end":600,"id":18,"start":540},
{"day":3,"end":660,"id":19,"start":600},
{"day":3,"end":720,"id":20,"start":660}]},"format":1,"settings":{"seed":7,"steps":100}}"#,
    },
    Case {
        number: 2147483648,
        size: 41,
        text: r#"{"domain":"timetable","facts":{"lesson":[
{"group":"G1","id":1,"size":20,"subject":"S0","teacher":"T3"},
{"group":"G1","id":2,"size":28,"subject":"S2","teacher":"T2"},
{"group":"G0","id":3,"size":27,"subject":"S2","teacher":"T0"},
{"group":"G0","id":4,"size":18,"subject":"S3","teacher":"T3"},
{"group":"G2","id":5,"size":28,"subject":"S0","teacher":"T3"},
{"group":"G1","id":6,"size":30,"subject":"S0","teacher":"T1"},
{"group":"G1","id":7,"size":27,"subject":"S0","teacher":"T1"},
{"group":"G1","id":8,"size":26,"subject":"S4","teacher":"T1"},
{"group":"G2","id":9,"size":25,"subject":"S6","teacher":"T1"},
{"group":"G1","id":10,"size":29,"subject":"S2","teacher":"T3"},
{"group":"G0","id":11,"size":16,"subject":"S7","teacher":"T2"},
{"group":"G2","id":12,"size":26,"subject":"S6","teacher":"T2"},
{"group":"G2","id":13,"size":27,"subject":"S0","teacher":"T3"},
{"group":"G1","id":14,"size":30,"subject":"S1","teacher":"T0"},
{"group":"G1","id":15,"size":29,"subject":"S6","teacher":"T3"},
{"group":"G1","id":16,"size":20,"subject":"S7","teacher":"T4"},
{"group":"G0","id":17,"size":23,"subject":"S5","teacher":"T0"},
{"group":"G1","id":18,"size":19,"subject":"S2","teacher":"T2"},
{"group":"G0","id":19,"size":21,"subject":"S3","teacher":"T3"},
{"group":"G2","id":20,"size":28,"subject":"S7","teacher":"T1"},
{"group":"G2","id":21,"size":16,"subject":"S4","teacher":"T2"},
{"group":"G1","id":22,"size":15,"subject":"S6","teacher":"T4"},
{"group":"G2","id":23,"size":27,"subject":"S6","teacher":"T0"},
{"group":"G0","id":24,"size":21,"subject":"S4","teacher":"T1"},
{"group":"G2","id":25,"size":24,"subject":"S5","teacher":"T0"},
{"group":"G1","id":26,"size":21,"subject":"S2","teacher":"T3"},
{"group":"G1","id":27,"size":18,"subject":"S6","teacher":"T1"},
{"group":"G0","id":28,"size":17,"subject":"S6","teacher":"T2"},
{"group":"G0","id":29,"size":18,"subject":"S5","teacher":"T4"},
{"group":"G0","id":30,"size":25,"subject":"S7","teacher":"T3"},
{"group":"G1","id":31,"size":29,"subject":"S2","teacher":"T2"},
{"group":"G2","id":32,"size":21,"subject":"S3","teacher":"T4"},
{"group":"G1","id":33,"size":18,"subject":"S6","teacher":"T3"},
{"group":"G2","id":34,"size":28,"subject":"S2","teacher":"T0"},
{"group":"G1","id":35,"size":30,"subject":"S0","teacher":"T3"},
{"group":"G2","id":36,"size":17,"subject":"S2","teacher":"T4"},
{"group":"G1","id":37,"size":26,"subject":"S4","teacher":"T0"},
{"group":"G0","id":38,"size":19,"subject":"S4","teacher":"T4"},
{"group":"G0","id":39,"size":26,"subject":"S0","teacher":"T2"},
{"group":"G1","id":40,"size":27,"subject":"S3","teacher":"T4"},
{"group":"G2","id":41,"size":30,"subject":"S7","teacher":"T1"}
],"room":[
{"capacity":30,"id":1},
{"capacity":30,"id":2},
{"capacity":30,"id":3}
],"timeslot":[
{"day":1,"end":540,"id":1,"start":480},
{"day":1,"end":600,"id":2,"start":540},
{"day":1,"end":660,"id":3,"start":600},
{"day":1,"end":720,"id":4,"start":660},
{"day":1,"end":780,"id":5,"start":720},
{"day":1,"end":840,"id":6,"start":780},
{"day":1,"end":900,"id":7,"start":840},
{"day":1,"end":960,"id":8,"start":900},
{"day":2,"end":540,"id":9,"start":480},
{"day":2,"end":600,"id":10,"start":540},
{"day":2,"end":660,"id":11,"start":600},
{"day":2,"end":720,"id":12,"start":660},
{"day":2,"end":780,"id":13,"start":720},
{"day":2,"end":840,"id":14,"start":780},
{"day":2,"end":900,"id":15,"start":840},
{"day":2,"end":960,"id":16,"start":900},
{"day":3,"end":540,"id":17,"start":480},
{"day":3,"end":600,"id":18,"start":540},
{"day":3,"end":660,"id":19,"start":600},
{"day":3,"end":720,"id":20,"start":660},
{"day":3,"end":780,"id":21,"start":720},
{"day":3,"end":840,"id":22,"start":780},
{"day":3,"end":900,"id":23,"start":840},
{"day":3,"end":960,"id":24,"start":900},
{"day":4,"end":540,"id":25,"start":480},
{"day":4,"end":600,"id":26,"start":540},
{"day":4,"end":660,"id":27,"start":600},
{"day":4,"end":720,"id":28,"start":660},
{"day":4,"end":780,"id":29,"start":720},
{"day":4,"end":840,"id":30,"start":780},
{"day":4,"end":900,"id":31,"start":840},
{"day":4,"end":960,"id":32,"start":900},
{"day":5,"end":540,"id":33,"start":480},
{"day":5,"end":600,"id":34,"start":540},
{"day":5,"end":660,"id":35,"start":600},
{"day":5,"end":720,"id":36,"start":660},
{"day":5,"end":780,"id":37,"start":720},
{"day":5,"end":840,"id":38,"start":780},
{"day":5,"end":900,"id":39,"start":840},
{"day":5,"end":960,"id":40,"start":900}]},"format":1,"settings":{"seed":2147483648,"steps":205}}"#,
    },
    Case {
        number: 7,
        size: 1,
        text: r#"{"domain":"timetable","facts":{"lesson":[
{"group":"G0","id":1,"size":17,"subject":"S4","teacher":"T0"}
],"room":[
{"capacity":30,"id":1}
],"timeslot":[
{"day":1,"end":540,"id":1,"start":480}]},"format":1,"settings":{"seed":7,"steps":5}}"#,
    },
    Case {
        number: 99,
        size: 60,
        text: r#"{"domain":"timetable","facts":{"lesson":[
{"group":"G2","id":1,"size":23,"subject":"S0","teacher":"T3"},
{"group":"G0","id":2,"size":26,"subject":"S1","teacher":"T1"},
{"group":"G0","id":3,"size":23,"subject":"S6","teacher":"T1"},
{"group":"G0","id":4,"size":16,"subject":"S0","teacher":"T0"},
{"group":"G0","id":5,"size":21,"subject":"S5","teacher":"T5"},
{"group":"G0","id":6,"size":30,"subject":"S1","teacher":"T3"},
{"group":"G1","id":7,"size":27,"subject":"S4","teacher":"T3"},
{"group":"G0","id":8,"size":28,"subject":"S2","teacher":"T1"},
{"group":"G0","id":9,"size":15,"subject":"S5","teacher":"T1"},
{"group":"G1","id":10,"size":29,"subject":"S3","teacher":"T2"},
{"group":"G2","id":11,"size":19,"subject":"S7","teacher":"T4"},
{"group":"G2","id":12,"size":16,"subject":"S7","teacher":"T4"},
{"group":"G0","id":13,"size":20,"subject":"S3","teacher":"T4"},
{"group":"G1","id":14,"size":19,"subject":"S1","teacher":"T1"},
{"group":"G1","id":15,"size":28,"subject":"S0","teacher":"T4"},
{"group":"G2","id":16,"size":29,"subject":"S3","teacher":"T1"},
{"group":"G1","id":17,"size":18,"subject":"S1","teacher":"T2"},
{"group":"G1","id":18,"size":17,"subject":"S6","teacher":"T1"},
{"group":"G1","id":19,"size":23,"subject":"S4","teacher":"T3"},
{"group":"G1","id":20,"size":16,"subject":"S7","teacher":"T2"},
{"group":"G2","id":21,"size":25,"subject":"S3","teacher":"T5"},
{"group":"G0","id":22,"size":21,"subject":"S6","teacher":"T3"},
{"group":"G1","id":23,"size":17,"subject":"S5","teacher":"T2"},
{"group":"G0","id":24,"size":25,"subject":"S7","teacher":"T4"},
{"group":"G2","id":25,"size":23,"subject":"S4","teacher":"T0"},
{"group":"G1","id":26,"size":15,"subject":"S3","teacher":"T2"},
{"group":"G0","id":27,"size":27,"subject":"S6","teacher":"T0"},
{"group":"G2","id":28,"size":23,"subject":"S6","teacher":"T3"},
{"group":"G0","id":29,"size":28,"subject":"S6","teacher":"T2"},
{"group":"G0","id":30,"size":29,"subject":"S1","teacher":"T1"},
{"group":"G1","id":31,"size":19,"subject":"S2","teacher":"T2"},
{"group":"G0","id":32,"size":25,"subject":"S7","teacher":"T2"},
{"group":"G1","id":33,"size":23,"subject":"S5","teacher":"T5"},
{"group":"G1","id":34,"size":30,"subject":"S2","teacher":"T2"},
{"group":"G0","id":35,"size":24,"subject":"S5","teacher":"T4"},
{"group":"G1","id":36,"size":29,"subject":"S5","teacher":"T5"},
{"group":"G1","id":37,"size":22,"subject":"S3","teacher":"T2"},
{"group":"G2","id":38,"size":18,"subject":"S1","teacher":"T4"},
{"group":"G2","id":39,"size":25,"subject":"S0","teacher":"T2"},
{"group":"G0","id":40,"size":20,"subject":"S3","teacher":"T4"},
{"group":"G0","id":41,"size":25,"subject":"S5","teacher":"T3"},
{"group":"G2","id":42,"size":23,"subject":"S2","teacher":"T1"},
{"group":"G0","id":43,"size":22,"subject":"S0","teacher":"T5"},
{"group":"G2","id":44,"size":27,"subject":"S4","teacher":"T3"},
{"group":"G1","id":45,"size":30,"subject":"S4","teacher":"T5"},
{"group":"G2","id":46,"size":29,"subject":"S0","teacher":"T4"},
{"group":"G2","id":47,"size":28,"subject":"S7","teacher":"T3"},
{"group":"G2","id":48,"size":19,"subject":"S3","teacher":"T5"},
{"group":"G1","id":49,"size":21,"subject":"S3","teacher":"T1"},
{"group":"G0","id":50,"size":17,"subject":"S5","teacher":"T4"},
{"group":"G0","id":51,"size":27,"subject":"S0","teacher":"T0"},
{"group":"G1","id":52,"size":25,"subject":"S2","teacher":"T2"},
{"group":"G2","id":53,"size":29,"subject":"S7","teacher":"T2"},
{"group":"G2","id":54,"size":20,"subject":"S4","teacher":"T4"},
{"group":"G2","id":55,"size":19,"subject":"S6","teacher":"T1"},
{"group":"G0","id":56,"size":29,"subject":"S6","teacher":"T4"},
{"group":"G2","id":57,"size":20,"subject":"S1","teacher":"T1"},
{"group":"G2","id":58,"size":21,"subject":"S0","teacher":"T1"},
{"group":"G2","id":59,"size":18,"subject":"S5","teacher":"T5"},
{"group":"G1","id":60,"size":29,"subject":"S0","teacher":"T5"}
],"room":[
{"capacity":30,"id":1},
{"capacity":30,"id":2},
{"capacity":30,"id":3}
],"timeslot":[
{"day":1,"end":540,"id":1,"start":480},
{"day":1,"end":600,"id":2,"start":540},
{"day":1,"end":660,"id":3,"start":600},
{"day":1,"end":720,"id":4,"start":660},
{"day":1,"end":780,"id":5,"start":720},
{"day":1,"end":840,"id":6,"start":780},
{"day":1,"end":900,"id":7,"start":840},
{"day":1,"end":960,"id":8,"start":900},
{"day":2,"end":540,"id":9,"start":480},
{"day":2,"end":600,"id":10,"start":540},
{"day":2,"end":660,"id":11,"start":600},
{"day":2,"end":720,"id":12,"start":660},
{"day":2,"end":780,"id":13,"start":720},
{"day":2,"end":840,"id":14,"start":780},
{"day":2,"end":900,"id":15,"start":840},
{"day":2,"end":960,"id":16,"start":900},
{"day":3,"end":540,"id":17,"start":480},
{"day":3,"end":600,"id":18,"start":540},
{"day":3,"end":660,"id":19,"start":600},
{"day":3,"end":720,"id":20,"start":660},
{"day":3,"end":780,"id":21,"start":720},
{"day":3,"end":840,"id":22,"start":780},
{"day":3,"end":900,"id":23,"start":840},
{"day":3,"end":960,"id":24,"start":900},
{"day":4,"end":540,"id":25,"start":480},
{"day":4,"end":600,"id":26,"start":540},
{"day":4,"end":660,"id":27,"start":600},
{"day":4,"end":720,"id":28,"start":660},
{"day":4,"end":780,"id":29,"start":720},
{"day":4,"end":840,"id":30,"start":780},
{"day":4,"end":900,"id":31,"start":840},
{"day":4,"end":960,"id":32,"start":900},
{"day":5,"end":540,"id":33,"start":480},
{"day":5,"end":600,"id":34,"start":540},
{"day":5,"end":660,"id":35,"start":600},
{"day":5,"end":720,"id":36,"start":660},
{"day":5,"end":780,"id":37,"start":720},
{"day":5,"end":840,"id":38,"start":780},
{"day":5,"end":900,"id":39,"start":840},
{"day":5,"end":960,"id":40,"start":900}]},"format":1,"settings":{"seed":99,"steps":300}}"#,
    },
];

/// Whether these bytes are the text without its line feeds.
fn is_joined(bytes: &[u8], text: &str) -> bool {
    let mut left = bytes;
    for byte in text.as_bytes() {
        if *byte != b'\n' {
            match left.split_first() {
                Some((first, rest)) if first == byte => left = rest,
                _ => return false,
            }
        }
    }
    left.is_empty()
}

/// Whether the problem of this number and size stands behind a front as it was made.
fn is_made(alloc: Global, case: &Case, front: &[u8]) -> Result<bool, Memory> {
    let mut out = Vec::from_slice(alloc, front)?;
    problem_text(case.number, case.size.clamp(1, 10_000), &mut out)?;
    Ok(is_joined(out.strip_prefix(front).unwrap_or(b""), case.text))
}

#[test]
fn texts_are_those_of_another_program(rt: HostRuntime) {
    for i in 0..CASES.len() {
        let case = &CASES[i];
        assert!(rt; matches!(is_made(rt.alloc(), case, b""), Ok(true)));
        assert!(rt; matches!(is_made(rt.alloc(), case, b"xxx"), Ok(true)));
    }
}
