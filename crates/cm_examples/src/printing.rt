// How a board is printed.
ghost use Rattle.cm_examples.specs.Printing.{PrintsAs, in_any_order, in_table_order};

/// A board is printed in the order of the table of lines and with its defaults, whatever order its lines
/// were read in. Read again it is printed as the same text.
pub fn a_board_is_printed_in_the_order_of_the_table()
    ensures any { PrintsAs in_any_order in_table_order }
    ensures again { PrintsAs in_table_order in_table_order }
{}
