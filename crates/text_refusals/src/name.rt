// The word for a number of a text, as its lines have it.
use plan_text::grammar::Item;

pub(crate) fn name_of(item: Item) -> &'static str {
    match item {
        Item::Guard => "guard",
        Item::Top => "top",
        Item::Port => "port",
        Item::Rate => "rate",
        Item::Blocker => "blocker",
        Item::Extra => "extra",
        Item::Flow => "flow",
        Item::Period => "period",
        Item::Count => "count",
        Item::Length => "length",
        Item::Jitter => "jitter",
        Item::Drift => "drift",
        Item::Timing => "timing",
        Item::Sync => "sync",
        Item::Format => "format",
        Item::First => "the first word",
        Item::End => "the end of the line",
        Item::Route | Item::Hops => "route",
    }
}
