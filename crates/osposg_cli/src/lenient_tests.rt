//! Worked runs on game texts as a person may write them.
use crate::Status;
use crate::tests::{FIVE_BOUND, FIVE_EACH_TIME, THREE_HALVED, answered, changed, joined, text_of};
use std::test::Fail;

/// The game of five each time in other spellings, with a comment, an empty line and line ends of two bytes.
const LENIENT: &str =
    "# five each time\r\nosposg   1\r\n\nsize 1 1 1 1   # all single\ntotal +01\ndiscount 0 1\nfirst 01\nstep 0 0 0 5\nout 0 0 1\nend\n";

#[test]
fn other_spellings_are_the_same_game(rt: HostRuntime) -> Result<(), Fail> {
    let alloc = rt.alloc();
    let five = text_of(alloc, &FIVE_EACH_TIME)?;
    assert!(rt;
        answered(alloc, &["floor"], LENIENT.as_bytes(), FIVE_BOUND)? == (Status::Done, true)
    );
    assert!(rt; answered(alloc, &["show"], LENIENT.as_bytes(), &five)? == (Status::Done, true));
    for (number, line) in [
        (3, "total 01"),
        (3, "\t total\t+1 # one"),
        (4, "discount -0 1"),
        (6, "step 0 0 0 +000000000000000000000000000000000005"),
        (8, "end\n\n# nothing more"),
        (8, " end\r\n\t# nothing more\r"),
    ] {
        let text = changed(alloc, &FIVE_EACH_TIME, number, line)?;
        assert!(rt;
            answered(alloc, &["show"], text.as_bytes(), &five)? == (Status::Done, true),
            "{line}"
        );
    }
    let open =
        "osposg 1\nsize 1 1 1 1\ntotal 1\ndiscount 0 1\nfirst 1\nstep 0 0 0 5\nout 0 0 1\nend # open";
    assert!(rt; answered(alloc, &["show"], open.as_bytes(), &five)? == (Status::Done, true));
    Ok(())
}

#[test]
fn each_line_counts_in_the_number_of_the_refused_one(rt: HostRuntime) -> Result<(), Fail> {
    let alloc = rt.alloc();
    let total =
        "# five each time\r\nosposg   1\r\n\nsize 1 1 1 1   # all single\ntotal 2\ndiscount 0 1\nfirst 01\nstep 0 0 0 5\nout 0 0 1\nend\n";
    let refused = [
        (total, "game refused: line 10 kind 6\n"),
        ("osposg 01\n", "game refused: line 1 kind 1\n"),
        ("\n# nothing\n", "game refused: line 3 kind 9\n"),
        ("\nosposg 1\nend", "game refused: line 3 kind 9\n"),
        ("end", "game refused: line 1 kind 9\n"),
        ("osposg 1\rsize 1 1 1 1\n", "game refused: line 1 kind 1\n"),
    ];
    for (text, refusal) in refused {
        assert!(rt;
            answered(alloc, &["show"], text.as_bytes(), refusal)? == (Status::GameRefused, true),
            "{refusal}"
        );
    }
    for (number, line, refusal) in [
        (3, "total 2", "game refused: line 8 kind 6\n"),
        (3, "total +", "game refused: line 3 kind 3\n"),
        (3, "total 1 1 # two", "game refused: line 3 kind 2\n"),
        (
            3,
            "total 0000000000000000000000000000000000001",
            "game refused: line 3 kind 3\n",
        ),
        (8, "end\n\n# more\nend", "game refused: line 11 kind 10\n"),
        (8, "\nend now", "game refused: line 9 kind 2\n"),
    ] {
        let text = changed(alloc, &FIVE_EACH_TIME, number, line)?;
        assert!(rt;
            answered(alloc, &["floor"], text.as_bytes(), refusal)? == (Status::GameRefused, true),
            "{line}"
        );
    }
    Ok(())
}

#[test]
fn a_piece_behind_the_last_line_is_the_end_line_where_it_is_due(
    rt: HostRuntime,
) -> Result<(), Fail> {
    let alloc = rt.alloc();
    let front = text_of(alloc, &FIVE_EACH_TIME[..7])?;
    let short = text_of(
        alloc,
        &[
            "osposg 1",
            "size 1 1 1 1",
            "total 2",
            "discount 0 1",
            "first 1",
            "step 0 0 0 5",
            "out 0 0 1",
        ],
    )?;
    let whole = text_of(alloc, &THREE_HALVED)?;
    for (lines, last, refusal) in [
        (front.as_str(), "end\r", "game refused: line 8 kind 9\n"),
        (front.as_str(), "end now", "game refused: line 8 kind 9\n"),
        (front.as_str(), "", "game refused: line 8 kind 9\n"),
        (short.as_str(), "end", "game refused: line 8 kind 6\n"),
        (short.as_str(), "out 0 0 1", "game refused: line 8 kind 9\n"),
        (whole.as_str(), "end", "game refused: line 9 kind 10\n"),
    ] {
        let text = joined(alloc, lines, last)?;
        assert!(rt;
            answered(alloc, &["floor"], text.as_bytes(), refusal)? == (Status::GameRefused, true),
            "{last}"
        );
    }
    Ok(())
}
