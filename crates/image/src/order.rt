// The byte orders of an image: which of them there are, and what each has reversed in each four bytes. An order goes on as its number, and is no enum:
// what is told one here, in loader and in compare promises an answer for every number, and so asks nothing of who calls it.
#![tactic(auto, unfolding(fields::specs::Options::is_no_order, crate::specs::Order::turns_numbers, crate::specs::Order::turns_data))]

ghost use Rattle.std.specs.Prelude.{◌≡◌};
ghost use Rattle.fields.specs.Options.{is_no_order};
ghost use Rattle.image.specs.Order.{turns_numbers, turns_data};

// It is none of 0 to 3.
pub fn is_no_order(order: u32) -> bool
    ensures { result ≡ is_no_order order }
{
    3 < order
}

// Entry point, sizes and addresses are reversed.
pub fn turns_numbers(order: u32) -> bool
    ensures { result ≡ turns_numbers order }
{
    (order == 1) | (order == 3)
}

// Data areas are.
pub fn turns_data(order: u32) -> bool
    ensures { result ≡ turns_data order }
{
    (order == 2) | (order == 3)
}
