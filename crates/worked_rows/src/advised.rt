//! Worked advice of first beliefs on seeds, with its node or point. `bench/stage/model.py` made the wanted texts.

ghost use Rattle.stage_game.specs.Asked.{AreBits};

use crate::generated::checksum;
use crate::stages::{lower_of, seeds_of, upper_of};
use crate::told::{game_of, lower_told, upper_told};
use crate::visits::{solver_of, visited};
use backup::{new_node, new_point};
use belief::Belief;
use game_gen::make;
use game_model::{Game, GameBuilder, GameFault, Shape, law_game};
use stage_game::{lower_advice, upper_advice};
use std::alloc::{AllocError, Global};
use std::test::Fail;

/// The lower advice of the first candidates on a game's seeds at its first belief, and its node.
fn lower_made(alloc: Global, game: &Game, bits: u32) -> Result<String, AllocError>
    requires { AreBits bits }
{
    law_game(game);
    let (nodes, _) = seeds_of(alloc, game)?;
    let candidates = lower_of(alloc, game, &nodes, None)?;
    let mut solver = solver_of(alloc, game)?;
    let belief = Belief::first_of(game);
    let advice = lower_advice(alloc, &mut solver, game, &belief, &nodes, &candidates, bits)?;
    let node = new_node(alloc, game, &advice, &nodes)?;
    lower_told(alloc, &advice, &node)
}

/// The upper advice of the first candidates on a game's seeds at its first belief, and its point.
fn upper_made(alloc: Global, game: &Game, bits: u32) -> Result<String, AllocError>
    requires { AreBits bits }
{
    law_game(game);
    let (_, points) = seeds_of(alloc, game)?;
    let candidates = upper_of(alloc, game, &points, None)?;
    let mut solver = solver_of(alloc, game)?;
    let belief = Belief::first_of(game);
    let advice = upper_advice(
        alloc,
        &mut solver,
        game,
        &belief,
        &points,
        &candidates,
        bits,
    )?;
    let point = new_point(alloc, game, &belief, &advice, &points)?;
    upper_told(alloc, &advice, &point)
}

/// Whether advice of 10 bits is this on the lower side and on the upper one, and a visit of the first belief too.
fn are_told(alloc: Global, game: &Game, lower: &str, upper: &str) -> Result<bool, AllocError> {
    let mut both = String::from_str(alloc, lower)?;
    both.push_str(upper)?;
    Ok(
        lower_made(alloc, game, 10)?.as_str() == lower
            && upper_made(alloc, game, 10)?.as_str() == upper
            && visited(alloc, game, 1)?.as_str() == both.as_str(),
    )
}

/// Player one wins the coin where both actions are equal, and loses it else; nothing follows.
const MATCHING_PENNIES: &str = "osposg 1
size 1 2 2 1
total 1
discount 0 1
first 1
step 0 0 0 1
out 0 0 1
step 0 0 1 -1
out 0 0 1
step 0 1 0 -1
out 0 0 1
step 0 1 1 1
out 0 0 1
end
";

#[test]
fn advice_of_matching_pennies_is_even(rt: HostRuntime) -> Result<(), Fail> {
    let game = game_of(rt.alloc(), MATCHING_PENNIES).expect(&rt, "a game");
    let lower = "end optimal
own 32768 32768
next 0 0 0 32768
next 1 0 0 32768
informed 32768 32768
vector 0
";
    let upper = "end optimal
own 32768 32768
wanted 0 0 0 0
wanted 1 0 0 0
informed 32768 32768
belief 1
value 0
split 0 0 0 65536
split 1 0 0 65536
";
    assert!(rt; are_told(rt.alloc(), &game, lower, upper)?);
    Ok(())
}

/// One of everything, and nothing follows.
const FIVE_EACH_TIME: &str = "osposg 1
size 1 1 1 1
total 1
discount 0 1
first 1
step 0 0 0 5
out 0 0 1
end
";

#[test]
fn advice_where_there_is_one_of_everything_is_all_of_it(rt: HostRuntime) -> Result<(), Fail> {
    let game = game_of(rt.alloc(), FIVE_EACH_TIME).expect(&rt, "a game");
    let lower = "end optimal
own 65536
next 0 0 0 65536
informed 65536
vector 327680
";
    let upper = "end optimal
own 65536
wanted 0 0 0 0
informed 65536
belief 1
value 327680
split 0 0 0 65536
";
    assert!(rt; are_told(rt.alloc(), &game, lower, upper)?);
    Ok(())
}

/// The informed player pays 3 or 4, again and again; the discount is a half.
const THREE_OR_FOUR: &str = "osposg 1
size 1 1 2 1
total 1
discount 1 2
first 1
step 0 0 0 3
out 0 0 1
step 0 0 1 4
out 0 0 1
end
";

/// The seed node has 393,215 and the seed point 393,217. So a stage is worth 393,215 1/2 at the least, which an average
/// over 3 and 4 would pass, and 393,216 1/2 at the most.
#[test]
fn a_node_has_the_least_rounded_down_and_a_point_is_rounded_up(
    rt: HostRuntime,
) -> Result<(), Fail> {
    let game = game_of(rt.alloc(), THREE_OR_FOUR).expect(&rt, "a game");
    let lower = "end optimal
own 65536
next 0 0 0 65536
informed 65536 0
vector 393215
";
    let upper = "end optimal
own 65536
wanted 0 0 0 512
informed 65536 0
belief 1
value 393217
split 0 0 0 65536
";
    assert!(rt; are_told(rt.alloc(), &game, lower, upper)?);
    Ok(())
}

/// Nothing is ever paid, so the span is 0 and the width 1.
const NOTHING_PAID: &str = "osposg 1
size 1 2 2 1
total 1
discount 1 2
first 1
step 0 0 0 0
out 0 0 1
step 0 0 1 0
out 0 0 1
step 0 1 0 0
out 0 0 1
step 0 1 1 0
out 0 0 1
end
";

#[test]
fn advice_where_nothing_is_paid_is_the_first_of_all(rt: HostRuntime) -> Result<(), Fail> {
    let game = game_of(rt.alloc(), NOTHING_PAID).expect(&rt, "a game");
    let lower = "end optimal
own 65536 0
next 0 0 0 65536
informed 65536 0
vector 0
";
    let upper = "end optimal
own 65536 0
wanted 0 0 0 512
wanted 1 0 0 512
informed 65536 0
belief 1
value 0
split 0 0 0 65536
split 1 0 0 65536
";
    assert!(rt; are_told(rt.alloc(), &game, lower, upper)?);
    Ok(())
}

/// Two states that stay as they are, each as likely: player one is paid where its action is the number of the state.
const GUESS_THE_STATE: &str = "osposg 1
size 2 2 1 1
total 1
discount 0 1
first 1 1
step 0 0 0 1
out 0 0 1
step 0 1 0 0
out 0 0 1
step 1 0 0 0
out 0 1 1
step 1 1 0 1
out 0 1 1
end
";

#[test]
fn advice_of_guess_the_state_is_worth_a_unit_from_both_sides(rt: HostRuntime) -> Result<(), Fail> {
    let game = game_of(rt.alloc(), GUESS_THE_STATE).expect(&rt, "a game");
    let lower = "end optimal
own 65536 0
next 0 0 0 65536
informed 65536
informed 65536
vector 65536 0
";
    let upper = "end optimal
own 65536 0
wanted 0 0 0 0
wanted 0 0 1 0
wanted 0 0 2 0
wanted 1 0 0 0
wanted 1 0 1 0
wanted 1 0 2 0
informed 65536
informed 65536
belief 1 1
value 65536
split 0 0 0 65536
split 0 0 1 65536
split 1 0 0 65536
split 1 0 1 65536
";
    assert!(rt; are_told(rt.alloc(), &game, lower, upper)?);
    Ok(())
}

/// It is sure at first that the state is 0, and observation 0 follows; observation 1 follows state 1 alone.
pub const SURE_AT_FIRST: &str = "osposg 1
size 2 2 2 2
total 2
discount 1 2
first 1 0
step 0 0 0 1
out 0 0 1
out 0 1 1
step 0 0 1 -1
out 0 0 2
step 0 1 0 -1
out 0 0 2
step 0 1 1 1
out 0 1 2
step 1 0 0 3
out 1 1 2
step 1 0 1 -1
out 1 1 2
step 1 1 0 -1
out 1 1 2
step 1 1 1 3
out 1 0 1
out 1 1 1
end
";

#[test]
fn no_share_follows_where_the_mass_is_zero(rt: HostRuntime) -> Result<(), Fail> {
    let game = game_of(rt.alloc(), SURE_AT_FIRST).expect(&rt, "a game");
    let lower = "end optimal
own 32768 32768
next 0 0 0 32768
next 0 1 0 32768
next 1 0 0 32768
next 1 1 0 32768
informed 32768 32768
informed 65536 0
vector -65537 -1
";
    let upper = "end optimal
own 35735 29801
wanted 0 0 0 349696
wanted 0 0 1 131072
wanted 0 1 0 0
wanted 0 1 1 0
wanted 1 0 0 262144
wanted 1 0 1 218624
wanted 1 1 0 0
wanted 1 1 1 0
informed 35735 29801
informed 65536 0
belief 1 0
value 122172
split 0 0 0 95337
split 0 0 1 35735
split 1 0 0 71470
split 1 0 1 59602
";
    assert!(rt; are_told(rt.alloc(), &game, lower, upper)?);
    Ok(())
}

/// Whether a text begins with this front and has this checksum.
fn is_summed(text: &str, front: &str, sum: u64) -> bool {
    text.as_bytes().starts_with(front.as_bytes()) && checksum(text.as_bytes()) == sum
}

#[test]
fn lower_advice_is_read_at_each_of_the_three_ends(rt: HostRuntime) -> Result<(), Fail> {
    let game = make(rt.alloc(), 2, 8)?;
    let wide = lower_made(rt.alloc(), &game, 10)?;
    assert!(rt;
        is_summed(
            &wide,
            "end wide 34 33\nown 65536 0 0\n",
            1_143_099_543_454_032_829
        )
    );
    let spent = lower_made(rt.alloc(), &game, 7)?;
    assert!(rt;
        is_summed(
            &spent,
            "end spent\nown 49152 16384 0\n",
            14_796_555_070_546_350_547
        )
    );
    let optimal = lower_made(rt.alloc(), &game, 5)?;
    assert!(rt;
        is_summed(
            &optimal,
            "end optimal\nown 0 32768 32768\n",
            4_782_021_305_017_896_856
        )
    );
    Ok(())
}

#[test]
fn upper_advice_is_read_at_each_of_the_three_ends(rt: HostRuntime) -> Result<(), Fail> {
    let game = make(rt.alloc(), 2, 8)?;
    let wide = upper_made(rt.alloc(), &game, 10)?;
    assert!(rt;
        is_summed(
            &wide,
            "end wide 0 1\nown 59891 5645 0\n",
            10_335_002_802_988_998_070
        )
    );
    let optimal = upper_made(rt.alloc(), &game, 5)?;
    assert!(rt;
        is_summed(
            &optimal,
            "end optimal\nown 0 35028 30508\n",
            9_164_614_256_865_414_809
        )
    );
    let larger = make(rt.alloc(), 1, 10)?;
    let spent = upper_made(rt.alloc(), &larger, 5)?;
    assert!(rt;
        is_summed(
            &spent,
            "end spent\nown 14930 26942 22476 1188\n",
            11_283_687_890_809_733_103
        )
    );
    Ok(())
}

/// As much of everything as a game may have, and nothing follows. Player one is paid 3 where state and actions sum to a
/// multiple of 6, and pays 1 else.
fn greatest(alloc: Global) -> Result<Game, GameFault> {
    let shape = Shape {
        states: 16,
        own_actions: 6,
        informed_actions: 6,
        observations: 8,
        row_total: 1,
        discount: (0, 1),
    };
    let mut builder = GameBuilder::new(alloc, shape, &[1; 16])?;
    for place in 0..16 * 36 {
        let (s, a, c) = (place / 36, place / 6 % 6, place % 6);
        builder.step(if (s + a + c) % 6 == 0 { 3 } else { -1 })?;
        builder.landing((s + a) % 8, (s + c) % 16, 1)?;
    }
    builder.finish()
}

#[test]
fn lower_advice_at_the_greatest_sizes_mixes_all_actions(rt: HostRuntime) -> Result<(), Fail> {
    let Ok(game) = greatest(rt.alloc()) else {
        panic!(rt; "the game is refused");
    };
    let lower = lower_made(rt.alloc(), &game, 10)?;
    let front = "end optimal\nown 10926 10922 10922 10922 10922 10922\n";
    assert!(rt; is_summed(&lower, front, 16_241_788_914_935_650_591));
    Ok(())
}

#[test]
fn upper_advice_at_the_greatest_sizes_mixes_all_actions(rt: HostRuntime) -> Result<(), Fail> {
    let Ok(game) = greatest(rt.alloc()) else {
        panic!(rt; "the game is refused");
    };
    let upper = upper_made(rt.alloc(), &game, 10)?;
    let front = "end optimal\nown 10926 10922 10922 10922 10922 10922\n";
    assert!(rt; is_summed(&upper, front, 12_555_719_130_830_398_142));
    Ok(())
}
