// Products of tags: a digit to the base 3 for each place.
ghost use Rattle.std.specs.Prelude.{◌≡◌, true, false, ◌&&◌, ℕ, suc, ◌+◌, ◌<◌, ◌≤◌, ◌^◌, MatchOption};
ghost use Rattle.conditions.specs.Sets.{member, set_of};
ghost use Rattle.conditions.specs.Places.{places};
ghost use Rattle.conditions.specs.Conditions.{number};
ghost use Rattle.conditions.specs.Products.{
  tag_number,
  tag_at,
  agrees,
  allowed,
  within,
  needed,
  prime,
  NonePrime,
  prime_from,
  next_prime,
};

use crate::condition::Condition;
use crate::place::{PLACES, Place};
use crate::table::ALLOWED;

// A product, by its number. Digits past the last place say nothing.
#[derive(Clone, Copy, Debug, PartialEq, Eq)]
pub struct Product(pub usize);

// The powers of 3, which are what the digits count.
const POWERS: [usize; PLACES + 1] = [1, 3, 9, 27, 81, 243, 729];

// What a digit counts at a place, and past the last place the number of products.
pub(crate) fn power(i: usize) -> usize
    requires { i ≤ places }
    ensures { result ≡ 3 ^ i }
{
    POWERS[i]
}

// What a product asks of a place.
#[derive(Clone, Copy, Debug, PartialEq, Eq)]
pub(crate) enum Tag {
    Absent,
    Completed,
    Aborted,
}

impl Tag {
    // The tag that a digit counts.
    fn of(digit: usize) -> Tag
        requires { digit < 3 }
        ensures { tag_number result ≡ digit }
    {
        match digit {
            0 => Tag::Absent,
            1 => Tag::Completed,
            2 => Tag::Aborted,
            _ => unreachable!(),
        }
    }
}

impl From<Tag> for usize {
    ghost from_gives = { λ tag digit. digit ≡ tag_number tag };

    // What a digit counts.
    fn from(tag: Tag) -> usize {
        match tag {
            Tag::Absent => 0,
            Tag::Completed => 1,
            Tag::Aborted => 2,
        }
    }
}

impl Product {
    // How many products there are.
    pub const COUNT: usize = 729;

    // The assignments that the product allows.
    pub fn allowed(self) -> Condition
        ensures { number result ≡ allowed places self.0 }
    {
        let p = self.0 % Product::COUNT;
        Condition(ALLOWED[p])
    }

    // The same from its tags, for `within`.
    // kept: a twin of `allowed`, docs/DECISIONS.md: read from the table a product costs 1,470 instructions, not 85.
    fn by_tags(self) -> Condition
        ensures { number result ≡ allowed places self.0 }
    {
        let mut set = Condition::FULL;
        let mut rest = self.0;
        for place in 0..PLACES {
            set = set.tagged(Place(place), Tag::of(rest % 3));
            rest /= 3;
        }
        set
    }

    // Whether every assignment that it allows is a member.
    pub fn within(self, c: Condition) -> bool
        ensures { result ≡ within places self.0 (number c) }
    {
        let allowed = self.by_tags();
        (allowed.0 & !c.0) == 0
    }

    // The tag of the place.
    pub(crate) fn tag(self, i: usize) -> Tag
        requires { i < places }
        ensures { tag_number result ≡ tag_at self.0 i }
    {
        Tag::of((self.0 / power(i)) % 3)
    }

    // Whether the place has no tag, or the product with that tag fewer is not within the condition.
    fn needs(self, c: Condition, i: usize) -> bool
        requires { i < places }
        ensures { result ≡ needed places self.0 (number c) i }
    {
        let tag = self.tag(i);
        if tag == Tag::Absent {
            return true;
        }
        let fewer = Product(self.0 - usize::from(tag) * power(i));
        !fewer.within(c)
    }

    // Whether it is within the condition, and with no tag fewer is.
    pub fn is_prime(self, c: Condition) -> bool
        ensures { result ≡ prime places self.0 (number c) }
    {
        self.within(c) && (0..PLACES).all(|i| self.needs(c, i))
    }
}

impl Condition {
    // The members in which the place is as its tag asks.
    fn tagged(self, place: Place, tag: Tag) -> Condition
        ensures { number result ≡ set_of (2 ^ places) (λ a. member (number self) a && agrees (tag_number tag) (member a place.0)) }
    {
        match tag {
            Tag::Absent => self,
            Tag::Completed => self.intersection(Condition::completed(place)),
            Tag::Aborted => self.intersection(Condition::completed(place).complement()),
        }
    }

    // The condition's next prime product from a number on; where there is none, the number of
    // products, or the number that it began from if that is past it.
    // kept: no Option: the definition `Products.next_prime` gives that number (docs/DECISIONS.md, Conditions).
    pub fn next_prime(self, from: Product) -> Product
        ensures { result.0 ≡ next_prime places (number self) from.0 }
    {
        let end = from.0.max(Product::COUNT);
        Product(prime_from(self, from.0, Product::COUNT).unwrap_or(end))
    }
}

// What a set of assignments to i + 1 places leaves to the first i of them, where the last one is as
// its tag asks: the high half of the bits, the low half, or what is in both.
fn narrowed(set: u64, i: usize, tag: Tag) -> u64
    requires { i < places }
    ensures { (q : ℕ) → tag_at q i ≡ tag_number tag → within i q result ≡ within (suc i) q set }
{
    let bits = 1u64 << i;
    let done = set >> bits;
    let mask = (1u64 << bits) - 1;
    let gone = set & mask;
    match tag {
        Tag::Absent => done & gone,
        Tag::Completed => done,
        Tag::Aborted => gone,
    }
}

// Whether it is plain that no product with this tag is within the set and needs the tag.
fn is_barren(set: u64, i: usize, tag: Tag) -> bool
    requires { i < places }
    ensures { result ≡ true → (q : ℕ) → tag_at q i ≡ tag_number tag → (within (suc i) q set && needed (suc i) q set i) ≡ false }
{
    let with = narrowed(set, i, tag);
    if with == 0 {
        return true;
    }
    if tag == Tag::Absent {
        return false;
    }
    let without = narrowed(set, i, Tag::Absent);
    with == without
}

// How many products from p on are not prime, as far as the tags of p tell from the highest place
// down; none where p is prime.
fn barren_from(c: Condition, p: usize) -> Option<usize>
    ensures { MatchOption result (prime places p (number c) ≡ true) (λ n. (0 < n) × NonePrime places (number c) p (p + n)) }
{
    let mut set = c.0;
    let mut rest = p % Product::COUNT;
    let mut scale = Product::COUNT;
    for i in (0..PLACES).rev() {
        scale /= 3;
        let tag = Tag::of(rest / scale);
        rest %= scale;
        if is_barren(set, i, tag) {
            return Some(scale - rest);
        }
        set = narrowed(set, i, tag);
    }
    if Product(p).is_prime(c) {
        return None;
    }
    Some(1)
}

// The lowest number from one on and below a limit whose product is prime, if there is one.
pub(crate) fn prime_from(c: Condition, from: usize, limit: usize) -> Option<usize>
    ensures { MatchOption result (limit ≤ prime_from places (number c) from limit) (λ p. (p < limit) × (p ≡ prime_from places (number c) from limit)) }
{
    let mut p = from;
    // kept: no plainer as a `for`, since each step is as long as `barren_from` answers.
    while p < limit {
        let Some(barren) = barren_from(c, p) else {
            return Some(p);
        };
        if limit - p <= barren {
            return None;
        }
        p += barren;
    }
    None
}
