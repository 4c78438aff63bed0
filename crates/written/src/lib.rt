// What the verdict on a text means. A sheet is told apart from any text: its names, loads, rules and relay lines
// (specs/Sheets.antt); specs/Writing.antt says which text writes it and which table it fills. The theorem of
// specs/Accepts.antt: a text is accepted just where it writes a lawful sheet, and then with that sheet's table.
#![tactic(auto)]
