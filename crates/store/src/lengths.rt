ghost use Rattle.std.specs.Prelude.{◌≡◌};
ghost use Rattle.model.specs.Edition.{edition1};
ghost use Rattle.model.specs.Refusals.{good_image, good_key, good_bounds, good_value, by_lengths};
ghost use Rattle.store.specs.Numbers.{outcome_number};

use super::refusal::Refusal;

// Whether an image can have that length.
#[tactic(auto, unfolding(model::specs::Refusals::good_image, model::specs::Accept::between))]
pub fn image(length: usize) -> bool
    ensures { result ≡ good_image edition1 length }
{
    length % 512 == 0 && (2..=1024).contains(&(length / 512))
}

// Whether a key can have that length.
#[tactic(auto, unfolding(model::specs::Refusals::good_key, model::specs::Accept::between, model::specs::Sizes::key_most))]
pub fn key(length: usize) -> bool
    ensures { result ≡ good_key length }
{
    (1..=32).contains(&length)
}

// Whether a scan's bounds can have those lengths.
#[tactic(auto, unfolding(model::specs::Refusals::good_bounds, model::specs::Sizes::key_most))]
pub fn bounds(low: usize, high: usize) -> bool
    ensures { result ≡ good_bounds low high }
{
    low <= 32 && high <= 32
}

// Whether a value can have that length.
#[tactic(auto, unfolding(model::specs::Refusals::good_value, model::specs::Sizes::value_most, model::specs::Sizes::chain_most, model::specs::Sizes::payload))]
pub fn value(length: usize) -> bool
    ensures { result ≡ good_value 512 length }
{
    length <= 4032
}

// What the lengths of image and work area alone refuse, in the table's order; `keys` and `value` say whether those are good.
#[tactic(auto, unfolding(model::specs::Refusals::by_lengths, model::specs::Refusals::by_arguments, octets::specs::Choice::choose))]
pub fn test(bytes: usize, entries: usize, keys: bool, value: bool) -> Result<(), Refusal>
    ensures { outcome_number result ≡ by_lengths edition1 bytes entries keys value }
{
    if !image(bytes) {
        return Err(Refusal::BadImage);
    }
    if entries < bytes / 512 {
        return Err(Refusal::SmallWork);
    }
    if !keys {
        return Err(Refusal::BadKey);
    }
    if !value {
        return Err(Refusal::BadValue);
    }
    Ok(())
}
