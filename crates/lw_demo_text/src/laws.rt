ghost use Rattle.lw_demo_text.specs.DemoText.{DemoTextsReadBack};

/// The canonical text of the plan of a demo of 1 to 16 tasks is a script alone that spells this plan, without an order.
pub fn demo_texts_read_back()
    ensures { DemoTextsReadBack }
{}
