//! The words of candidates, and what a word picks.

use plan_draws::{Draws, pick};

/// The words and the pick of a candidate, computed by another program.
#[derive(Clone, Copy)]
struct Case {
    seed: u64,
    step: u32,
    number: u32,
    words: [u32; 8],
    bound: u32,
    picked: u32,
}

const CASES: [Case; 16] = [
    Case {
        seed: 0,
        step: 1,
        number: 2,
        words: [
            3202811807, 2050511189, 2090318488, 218639731, 2687045579, 1768285000, 1045677586,
            3984256562,
        ],
        bound: 2,
        picked: 1,
    },
    Case {
        seed: 11556709522447529761,
        step: 109154,
        number: 1,
        words: [
            4190993838, 2997135793, 1456660801, 1736968774, 2464952989, 87348003, 3297134833,
            440634894,
        ],
        bound: 2,
        picked: 1,
    },
    Case {
        seed: 18446744073709551615,
        step: 3,
        number: 1,
        words: [
            2730868830, 1792003193, 2306552927, 3015879421, 4057124420, 4126436178, 3191435307,
            2115693544,
        ],
        bound: 1,
        picked: 0,
    },
    Case {
        seed: 1,
        step: 1,
        number: 5762,
        words: [
            4000823181, 4107255497, 4189416141, 89077320, 3825633814, 3496648074, 3193742129,
            2329673296,
        ],
        bound: 7,
        picked: 6,
    },
    Case {
        seed: 0,
        step: 2,
        number: 9733,
        words: [
            2339410198, 1417419520, 2177203289, 1214980663, 3050317523, 4069541822, 842622911,
            722886234,
        ],
        bound: 65536,
        picked: 35696,
    },
    Case {
        seed: 18446744073709551615,
        step: 1,
        number: 3,
        words: [
            1911191026, 103153208, 2761401032, 249672688, 892392466, 785518867, 1746317945,
            1932094779,
        ],
        bound: 65536,
        picked: 29162,
    },
    Case {
        seed: 0,
        step: 863338,
        number: 224,
        words: [
            579141037, 3150127716, 2949486452, 2856079187, 3822585919, 3073992697, 3402552335,
            3072063093,
        ],
        bound: 2,
        picked: 0,
    },
    Case {
        seed: 16697275516644870876,
        step: 2,
        number: 1,
        words: [
            3784306600, 4062173239, 3693681131, 4228552206, 2072823924, 1624069969, 1755093202,
            2109858838,
        ],
        bound: 1,
        picked: 0,
    },
    Case {
        seed: 18446744073709551615,
        step: 2,
        number: 3,
        words: [
            3528000461, 2137275405, 3353763507, 3122904406, 734119527, 1870605029, 1720080032,
            461837063,
        ],
        bound: 2444306125,
        picked: 2007818113,
    },
    Case {
        seed: 13514460147307082127,
        step: 3,
        number: 1,
        words: [
            184030913, 1280272497, 1940774862, 2632845815, 737478702, 3819402517, 326651286,
            3773588449,
        ],
        bound: 4069324471,
        picked: 174362561,
    },
    Case {
        seed: 0,
        step: 3,
        number: 4605,
        words: [
            611868368, 420903371, 3141438105, 910257502, 1727844386, 3147367085, 3885034007,
            3852428819,
        ],
        bound: 3,
        picked: 0,
    },
    Case {
        seed: 18446744073709551615,
        step: 2,
        number: 8071,
        words: [
            1632015982, 3215193634, 3468817898, 3787909590, 3870449998, 3682357263, 1330234995,
            3302124106,
        ],
        bound: 3,
        picked: 1,
    },
    Case {
        seed: 0,
        step: 857281,
        number: 8556,
        words: [
            1566431150, 879716680, 1205615486, 2730297783, 1528161776, 3780795863, 3938774952,
            3407215429,
        ],
        bound: 3,
        picked: 1,
    },
    Case {
        seed: 10728125118045922392,
        step: 1,
        number: 2,
        words: [
            3836896420, 797345582, 17626944, 3999642852, 2270231114, 3029492820, 2798981016,
            347969421,
        ],
        bound: 7,
        picked: 6,
    },
    Case {
        seed: 0,
        step: 1,
        number: 9013,
        words: [
            1374309195, 299557127, 2732576701, 3783919405, 475383734, 4035870693, 4195419841,
            1531868758,
        ],
        bound: 65536,
        picked: 20970,
    },
    Case {
        seed: 0,
        step: 3,
        number: 2,
        words: [
            2139353036, 1235521143, 3981242308, 3566593252, 4004226166, 1238467434, 926293499,
            94273362,
        ],
        bound: 2,
        picked: 0,
    },
];

/// Whether the words and the pick of a candidate come out.
fn is_drawn(case: &Case) -> bool {
    let [first, _, _, _, _, _, _, _] = case.words;
    Draws::new(case.seed).words(case.step.max(1), case.number) == case.words
        && pick(first, case.bound.max(1)) == case.picked
}

/// Whether the words of a candidate come out behind those of another one.
fn are_drawn_behind(case: &Case, draws: &mut Draws, step: u32, number: u32) -> bool {
    let _ = draws.words(step.max(1), number);
    draws.words(case.step.max(1), case.number) == case.words
}

/// Whether the words of a candidate come out behind those of three others.
fn are_drawn_again(case: &Case, draws: &mut Draws) -> bool {
    are_drawn_behind(case, draws, case.step, case.number ^ 1)
        && are_drawn_behind(case, draws, 1, case.number)
        && are_drawn_behind(case, draws, case.step, case.number / 2)
}

#[test]
fn words_and_picks_are_those_of_another_program(rt: HostRuntime) {
    for i in 0..CASES.len() {
        let case = &CASES[i];
        assert!(rt; is_drawn(case) && are_drawn_again(case, &mut Draws::new(case.seed)));
    }
}

// The first words under the zero key are those of the block of RFC 8439, A.1, test vector 1.
const FIRST: [u32; 8] = [
    0xade0b876, 0x903df1a0, 0xe56a5d40, 0x28bd8653, 0xb819d2bd, 0x1aed8da0, 0xccef36a8, 0xc70d778b,
];

#[test]
fn first_words_are_the_cipher_s_test_vector(rt: HostRuntime) {
    let mut draws = Draws::new(0);
    let first = draws.words(1, 0);
    let [a, b, c, d, _, _, _, _] = draws.words(1, 1);
    assert!(rt; first == FIRST && [a, b, c, d] == [0x7c5941da, 0x8d485751, 0x3fe02477, 0x374ad8b8]);
}

#[test]
fn picks_are_whole_parts(rt: HostRuntime) {
    let picked = [
        pick(0, 5),
        pick(4294967295, 5),
        pick(2147483648, 3),
        pick(0x903df1a0, 2),
    ];
    assert!(rt; picked == [0, 4, 1, 1]);
}
