//! The order of editions, and years that are accepted and rejected.
ghost use Rattle.std.specs.Prelude.{◌≡◌, ◌==◌, nat_lt};
ghost use Rattle.std.specs.Ordering.{nat_cmp};
ghost use Rattle.rap_base.specs.Edition.{year};

use rap_base::edition::{Edition, InvalidEdition};
use std::cmp::Ordering;
use std::test::Fail;

// Editions are compared as their years are.
fn order(left: Edition, right: Edition) -> Ordering
    ensures { result ≡ nat_cmp (year left) (year right) }
{
    left.cmp(&right)
}

fn is_before(left: Edition, right: Edition) -> bool
    ensures { result ≡ nat_lt (year left) (year right) }
{
    left < right
}

fn is_same(left: Edition, right: Edition) -> bool
    ensures { result ≡ (year left == year right) }
{
    left == right
}

#[test]
fn reads_years(rt: HostRuntime) -> Result<(), Fail> {
    assert_eq!(rt; "2018".parse::<Edition>()?, Edition::Edition2018);
    assert_eq!(rt; "2024".parse::<Edition>()?, Edition::LATEST);
    for text in ["", "2019", "20180", " 2018", "edition2018"] {
        assert_eq!(rt; text.parse::<Edition>(), Err(InvalidEdition));
    }
    Ok(())
}

#[test]
fn orders_by_year(rt: HostRuntime) {
    assert_eq!(rt;
        order(Edition::Edition2021, Edition::Edition2018),
        Ordering::Greater
    );
    assert!(rt; is_before(Edition::Edition2015, Edition::Edition2018));
    assert!(rt; !is_same(Edition::Edition2021, Edition::CURRENT));
}
