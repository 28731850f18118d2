//! Tests of words, numbers and limits.
use text_words::{
    LineFault, are_behind, begins, below_limit, each_within, first_word, limited, number,
    numbers_after, read_numbers, split_line,
};

#[test]
fn a_line_is_cut_into_words_and_numbers(rt: HostRuntime) {
    let (line, rest) = split_line(b"out 0  -7\nend").expect(&rt, "the first line is whole");
    assert_eq!(rt; rest, b"end".as_slice());
    assert_eq!(rt; split_line(rest), None);
    let (word, behind) = first_word(line);
    assert_eq!(rt; word, b"out".as_slice());
    assert_eq!(rt; behind, Some(b"0  -7".as_slice()));
    assert!(rt; are_behind(behind, 3) && !are_behind(behind, 2) && are_behind(None, 0));
    assert_eq!(rt; first_word(b" a"), (b"".as_slice(), Some(b"a".as_slice())));
    assert_eq!(rt; first_word(rest), (rest, None));
    assert!(rt; begins(b"out", line) && !begins(b"ou", line) && begins(b"end", rest));
    let table: [(&[u8], Option<i128>); 8] = [
        (b"0", Some(0)),
        (b"-7", Some(-7)),
        (b"", None),
        (b"-", None),
        (b"-0", None),
        (b"+1", None),
        (b"01", None),
        (b"1000000000000000000000000000000000000", None),
    ];
    for (word, wanted) in &table {
        assert_eq!(rt; number(word), *wanted);
    }
}

#[test]
fn a_line_of_a_form_gives_its_numbers(rt: HostRuntime) {
    let line = b"size 3 -2 1".as_slice();
    let numbers = numbers_after(rt.alloc(), 's', 'n', line, b"size", 3).expect(
        &rt,
        "three numbers",
    );
    assert_eq!(rt; numbers.as_slice(), [3, -2, 1].as_slice());
    let longer = numbers_after(rt.alloc(), 's', 'n', line, b"size", 2);
    assert_eq!(rt; longer.err(), Some(LineFault::Refused('s')));
    let mut room = [0; 2];
    assert_eq!(rt;
        read_numbers('s', 'n', b"size 3 two", b"size", &mut room),
        Err('n')
    );
    assert_eq!(rt;
        read_numbers('s', 'n', b"size 3 -2", b"size", &mut room),
        Ok(())
    );
    assert_eq!(rt; room, [3, -2]);
    assert_eq!(rt;
        read_numbers('s', 'n', b"site 3 -2", b"size", &mut room),
        Err('s')
    );
}

#[test]
fn limits_hold_at_their_ends(rt: HostRuntime) {
    assert_eq!(rt; limited('x', -1, 4, 4), Ok(4));
    assert_eq!(rt; limited('x', -1, 4, 5), Err('x'));
    assert_eq!(rt; below_limit('x', 4, 3), Ok(3));
    assert_eq!(rt; below_limit('x', 4, 4), Err('x'));
    assert_eq!(rt; each_within('x', 0, 1, &[0, 1]), Ok(()));
    assert_eq!(rt; each_within('x', 0, 1, &[0, 2]), Err('x'));
}
