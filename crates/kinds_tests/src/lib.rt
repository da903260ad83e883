// Tests of the annotation kinds: corner values, plain values that are not canonical, maps at their ends, what is refused.
#![tactic(auto)]

#[cfg(test)]
mod tests {
    use kinds::clearances::Clearance;
    use kinds::codes::{Coded, read_code};
    use kinds::conditions::{Condition, variable};
    use kinds::counts::Count;
    use kinds::flags::Flag;
    use kinds::pairs::Pair;
    use kinds::semiring::Kind;
    use kinds::words::Worded;
    use maps::{Chain, Cleared, Left, Map, Present, Right, Under};
    use rows::coarsening::coarsen;
    use rows::places::{add_row, add_scaled_row, clear_row, scale_row};
    use rows::totals::{count_nonzero, multiply_row, sum_row};
    use std::alloc::{AllocError, Global};
    use std::test::Fail;

    const NO: Flag = Flag { yes: false };

    const YES: Flag = Flag { yes: true };

    fn count(times: u32) -> Count {
        Count { times }
    }

    fn both(left: Flag, times: u32) -> Pair<Flag, Count> {
        Pair {
            left,
            right: count(times),
        }
    }

    fn condition(bits: u64) -> Condition {
        Condition { bits }
    }

    // Whether a sum and a product of plain values are as they should be, from either side.
    fn joins<K: Kind>(a: K, b: K, sum: K, product: K) -> bool {
        a.plus(b).same(sum)
            & b.plus(a).same(sum)
            & a.times(b).same(product)
            & b.times(a).same(product)
    }

    #[test]
    fn flags(rt: HostRuntime) {
        assert!(rt; joins(NO, NO, NO, NO));
        assert!(rt; joins(NO, YES, YES, NO));
        assert!(rt; joins(YES, YES, YES, YES));
        assert!(rt; Flag::zero().same(NO) & Flag::one().same(YES) & !NO.same(YES));
        assert!(rt; Flag::read(0).is_some() & Flag::read(1).is_some());
        assert!(rt; Flag::read(2).is_none() & Flag::read(u64::MAX).is_none());
        assert_eq!(rt; YES.code(), 1);
    }

    #[test]
    fn counts_hold_at_the_top(rt: HostRuntime) {
        assert!(rt; joins(count(999_999), count(1), count(1_000_000), count(999_999)));
        assert!(rt; joins(count(1_000), count(1_000), count(2_000), count(1_000_000)));
        assert!(rt; joins(count(1_001), count(1_000), count(2_001), count(1_000_000)));
        assert!(rt;
            joins(
                count(500_000),
                count(500_001),
                count(1_000_000),
                count(1_000_000),
            )
        );
        assert!(rt; joins(count(7), Count::zero(), count(7), count(0)));
        assert!(rt; !count(999_999).same(count(1_000_000)));
        assert_eq!(rt; count(999).times(count(1_001)).code(), 999_999);
    }

    // A number above the largest count stands for the largest.
    #[test]
    fn counts_above_the_top(rt: HostRuntime) {
        assert!(rt; count(u32::MAX).same(count(1_000_000)));
        assert!(rt; count(1_000_001).same(count(4_000_000_000)));
        assert!(rt; !count(1_000_001).same(count(999_999)));
        assert!(rt; joins(count(u32::MAX), count(0), count(1_000_000), count(0)));
        assert!(rt;
            joins(
                count(u32::MAX),
                count(u32::MAX),
                count(1_000_000),
                count(1_000_000),
            )
        );
        assert!(rt;
            joins(
                count(1_000_001),
                count(1),
                count(1_000_000),
                count(1_000_000),
            )
        );
        assert_eq!(rt; count(u32::MAX).code(), 1_000_000);
    }

    #[test]
    fn count_codes(rt: HostRuntime) {
        assert!(rt; Count::read(0).is_some() & Count::read(1_000_000).is_some());
        assert!(rt; Count::read(1_000_001).is_none() & Count::read(1 << 32).is_none());
        assert!(rt; read_code::<Count>([0, 0, 0, 0, 0, 15, 66, 64]).is_some());
        assert!(rt; read_code::<Count>([0, 0, 0, 0, 0, 15, 66, 65]).is_none());
        assert!(rt; read_code::<Count>([1, 0, 0, 0, 0, 0, 0, 0]).is_none());
        assert!(rt; read_code([0, 0, 0, 0, 0, 0, 1, 2]).is_some_and(|c: Count| c.same(count(258))));
    }

    #[test]
    fn clearances(rt: HostRuntime) {
        let secret = Clearance::Secret;
        let public = Clearance::Public;
        assert!(rt; joins(secret, public, public, secret));
        assert!(rt; joins(secret, Clearance::Top, secret, Clearance::Top));
        assert!(rt; joins(Clearance::None, public, public, Clearance::None));
        assert!(rt;
            joins(
                Clearance::Confidential,
                secret,
                Clearance::Confidential,
                secret,
            )
        );
        assert!(rt; Clearance::zero().same(Clearance::None) & Clearance::one().same(public));
        assert!(rt; !secret.same(public) & secret.same(Clearance::Secret));
        assert!(rt; Clearance::read(4).is_some() & Clearance::read(5).is_none());
        assert_eq!(rt; Clearance::Confidential.code(), 3);
    }

    // x0 alone and x1 alone, each given by its one least bit, stand for the variables.
    #[test]
    fn conditions_are_closed_first(rt: HostRuntime) -> Result<(), Fail> {
        let x0 = condition(2);
        let x1 = condition(4);
        let (Some(v0), Some(v1)) = (variable(0), variable(1)) else {
            assert!(rt; false);
            return Ok(());
        };
        assert!(rt; x0.same(v0) & x1.same(v1) & !x0.same(x1));
        assert!(rt; joins(x0, x1, v0.plus(v1), condition(8)));
        assert!(rt; joins(x0, v1, condition(6), v0.times(v1)));
        assert!(rt; !x0.times(x1).same(Condition::zero()));
        assert!(rt; joins(condition(1), x0, Condition::one(), x0));
        assert!(rt; joins(Condition::zero(), x0, x0, Condition::zero()));
        assert_eq!(rt; x0.code(), 0xAAAA_AAAA_AAAA_AAAA);
        Ok(())
    }

    #[test]
    fn condition_codes(rt: HostRuntime) {
        assert!(rt; Condition::read(0).is_some() & Condition::read(u64::MAX).is_some());
        assert!(rt; Condition::read(1).is_none() & Condition::read(u64::MAX - 1).is_some());
        assert!(rt; Condition::read(0x8000_0000_0000_0000).is_some());
        assert!(rt; Condition::read(0x4000_0000_0000_0000).is_none());
        assert!(rt; Condition::read(0xAAAA_AAAA_AAAA_AAAA).is_some());
        assert!(rt; Condition::read(0xAAAA_AAAA_AAAA_AAA8).is_some());
        assert!(rt; Condition::read(0x2AAA_AAAA_AAAA_AAAA).is_none());
        assert!(rt; variable(5).is_some() & variable(6).is_none());
    }

    #[test]
    fn pairs_of_pairs(rt: HostRuntime) {
        let p = Pair {
            left: both(YES, u32::MAX),
            right: Clearance::Secret,
        };
        let q = Pair {
            left: both(NO, 1),
            right: Clearance::Public,
        };
        let sum = Pair {
            left: both(YES, 1_000_000),
            right: Clearance::Public,
        };
        let product = Pair {
            left: both(NO, 1_000_000),
            right: Clearance::Secret,
        };
        assert!(rt; joins(p, q, sum, product));
        assert!(rt; !p.same(q) & !sum.same(product));
        assert!(rt; joins(p, Kind::zero(), p, Kind::zero()));
        assert!(rt; p.times(Kind::one()).same(p));
    }

    #[test]
    fn words(rt: HostRuntime) -> Result<(), Fail> {
        let p = Pair {
            left: both(YES, u32::MAX),
            right: Clearance::Secret,
        };
        assert_eq!(rt;
            p.to_string(rt.alloc())?.as_str(),
            "((yes, 1000000), secret)"
        );
        assert_eq!(rt; condition(0).to_string(rt.alloc())?.as_str(), "never");
        assert_eq!(rt; condition(1).to_string(rt.alloc())?.as_str(), "always");
        assert_eq!(rt; condition(6).to_string(rt.alloc())?.as_str(), "x0 or x1");
        assert_eq!(rt;
            condition(40).to_string(rt.alloc())?.as_str(),
            "x0 and x1 or x0 and x2"
        );
        Ok(())
    }

    // A half of which nothing is known but that it has words.
    #[derive(Clone, Copy)]
    struct Silent;

    impl Worded for Silent {
        ghost told = { λ _ _. Unit {0} };

        fn words(self, heap: Global) -> Result<String, AllocError> {
            String::from_str(heap, "half")
        }
    }

    #[test]
    fn words_on_the_heap(rt: HostRuntime) -> Result<(), Fail> {
        let heap = rt.alloc();
        let p = Pair {
            left: Silent,
            right: both(YES, 3),
        };
        assert_eq!(rt; p.words(heap)?.as_str(), "(half, (yes, 3))");
        assert_eq!(rt; NO.words(heap)?.as_str(), "no");
        assert_eq!(rt; Clearance::Secret.words(heap)?.as_str(), "secret");
        assert_eq!(rt; condition(6).words(heap)?.as_str(), "x0 or x1");
        Ok(())
    }

    #[test]
    fn maps_at_their_ends(rt: HostRuntime) -> Result<(), Fail> {
        assert!(rt; !Present.map(count(0)).yes & Present.map(count(1)).yes);
        assert!(rt; Present.map(count(u32::MAX)).yes);
        assert!(rt; Cleared::new(0).is_none() & Cleared::new(5).is_none());
        let (Some(low), Some(high)) = (Cleared::new(1), Cleared::new(4)) else {
            assert!(rt; false);
            return Ok(());
        };
        assert!(rt; !low.map(Clearance::None).yes & low.map(Clearance::Top).yes);
        assert!(rt; !high.map(Clearance::Confidential).yes & high.map(Clearance::Public).yes);
        Ok(())
    }

    #[test]
    fn assignments_at_their_ends(rt: HostRuntime) -> Result<(), Fail> {
        assert!(rt; Under::new(64).is_none() & Under::new(255).is_none());
        let (Some(low), Some(one), Some(high)) = (Under::new(0), Under::new(1), Under::new(63))
        else {
            assert!(rt; false);
            return Ok(());
        };
        assert!(rt; !low.map(condition(2)).yes & one.map(condition(2)).yes);
        // the one bit 2 stands for x0, which holds at 63 though bit 63 is not set
        assert!(rt; high.map(condition(2)).yes & !high.map(condition(0)).yes);
        assert!(rt; low.map(condition(1)).yes & high.map(condition(1)).yes);
        assert!(rt; !one.map(condition(4)).yes & !one.map(condition(8)).yes);
        Ok(())
    }

    #[test]
    fn halves_and_chains(rt: HostRuntime) {
        let p = both(NO, 3);
        assert!(rt; !Left.map(p).yes & Right.map(p).same(count(3)));
        let way: Chain<Right, Present, Count> = Chain::new(Right, Present);
        assert!(rt; way.map(p).yes);
    }

    // Whether each row function does what it should, at values a and b of one kind.
    fn rows_work<K: Kind>(heap: Global, a: K, b: K, zero: K) -> Result<bool, AllocError> {
        let mut row = Vec::new(heap);
        row.push(a)?;
        row.push(b)?;
        let joined = sum_row(&row).same(a.plus(b)) & multiply_row(&row).same(a.times(b));
        row.push(zero)?;
        let mut bs = Vec::new(heap);
        bs.push(b)?;
        bs.push(b)?;
        add_row(&mut row, &bs);
        let added = row[0].same(a.plus(b)) & row[1].same(b.plus(b)) & row[2].same(zero);
        let mut long = Vec::new(heap);
        for _ in 0..4 {
            long.push(a)?;
        }
        add_scaled_row(&mut row, &long, b);
        let scaled = row[0].same(a.plus(b).plus(b.times(a))) & row[2].same(b.times(a));
        scale_row(&mut row, b);
        let multiplied = row[2].same(b.times(b.times(a)));
        clear_row(&mut row);
        let cleared = row[0].same(zero) & row[1].same(zero) & (count_nonzero(&row) == 0);
        Ok(joined & added & scaled & multiplied & cleared)
    }

    #[test]
    fn rows_of_flags(rt: HostRuntime) -> Result<(), Fail> {
        assert!(rt; rows_work(rt.alloc(), YES, NO, NO)?);
        Ok(())
    }

    #[test]
    fn rows_of_counts(rt: HostRuntime) -> Result<(), Fail> {
        assert!(rt; count_nonzero(&[count(0), count(5), count(0), count(u32::MAX)]) == 2);
        assert!(rt; rows_work(rt.alloc(), count(3), count(u32::MAX), count(0))?);
        Ok(())
    }

    #[test]
    fn rows_of_clearances(rt: HostRuntime) -> Result<(), Fail> {
        assert!(rt;
            rows_work(
                rt.alloc(),
                Clearance::Top,
                Clearance::Confidential,
                Clearance::None
            )?
        );
        Ok(())
    }

    #[test]
    fn rows_of_conditions(rt: HostRuntime) -> Result<(), Fail> {
        assert!(rt; rows_work(rt.alloc(), condition(2), condition(12), condition(0))?);
        Ok(())
    }

    #[test]
    fn rows_of_pairs(rt: HostRuntime) -> Result<(), Fail> {
        assert!(rt; rows_work(rt.alloc(), both(YES, 2), both(NO, 5), both(NO, 0))?);
        Ok(())
    }

    #[test]
    fn coarsened(rt: HostRuntime) -> Result<(), Fail> {
        let c = coarsen(rt.alloc(), &Present, &[count(0), count(2), count(u32::MAX)])?;
        assert!(rt; c.agree & c.sum.mapped.yes & !c.product.mapped.yes);
        assert!(rt; c.sum.join.same(count(1_000_000)) & c.product.join.same(count(0)));
        assert!(rt; c.images.len() == 3);
        assert!(rt; !c.images[0].yes & c.images[1].yes & c.images[2].yes);
        Ok(())
    }
}
