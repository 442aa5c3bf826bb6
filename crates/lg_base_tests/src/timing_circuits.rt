//! The scripts of circuits that a person worked out instant by instant.

pub(crate) const NOT_GATE: &str = "\
part not 0 > 1
pins 0
outputs 1
put 0 0
put 2 1
net 1 x1100
evaluations 1 0 1 0 0
net 0 0011
settlings 1 0:settled:1:1 1:settled:1:1
rows 0 1
table 1 - 1,1 0,1
table 0 1:settle";

pub(crate) const CHAIN_OF_FOUR: &str = "\
part not 0 > 1
part not 1 > 2
part not 2 > 3
part not 3 > 4
pins 0
outputs 4
put 0 0
put 5 1
net 1 x1111100000
net 2 xE000001111
net 3 xEE11111000
net 4 xEEE0000011
rows 0 1
table 4 - 0,4 1,4
table 3 1:settle
evaluations 4 3 1 1 0
settlings 4 0:settled:4:9 1:settled:4:4 1:settled:0:0
settlings 3 0:oscillates:4:9";

pub(crate) const CHAIN_OF_DELAYS: &str = "\
part not 0 > 1
part line3 1 > 2
part line5 2 > 3
pins 0
outputs 3
put 0 1
put 2 0
put 4 1
net 1 x001100
net 2 xxxx001100
net 3 xxxxxxxxx001100
rows 0 1
table 3 - 1,9 0,9
stood 0 1 19 3 settled:9:3";

pub(crate) const CHANGE_TAKEN_BACK: &str = "\
part line5 0 > 1
pins 0
outputs 1
put 0 0
put 3 1
put 4 0
net 1 xxxxx00010
stood 0 1 8 1 settled:5:1";

pub(crate) const NAND_LOOP: &str = "\
part nand 0 1 > 1
pins 0
outputs 1
put 0 0
put 4 1
net 1 x1111010
stood 0 1 3 3 oscillates:4:4";

pub(crate) const ENABLED_LOOP: &str = "\
part and 0 2 > 1
part not 1 > 2
pins 0
outputs 1
put 0 0
put 3 1
net 1 x00011001
net 2 xE1110011
rows 0 1 0
table 2 2:settle 0,2
table 3 2:settle 0,2
table 100 2:settle 0,2
rows 0
table 1 1:settle";

pub(crate) const TWO_GATES: &str = "\
part not 0 > 2
part not 1 > 2
pins 0 1
outputs 2
rows 00
table 9 - 1,1
rows 01
table 9 - E,1
rows 10
table 9 - E,1
rows 11
table 9 - 0,1
rows 1x
table 9 - E,1";

pub(crate) const PULLED_NETS: &str = "\
part not 0 > 1
pins 0
outputs 1
pull 0 1
pull 1 1
pull 2 1
pull 2 x
pull 3 0
pull 3 1
put 0 1
net 0 11
net 1 10
net 2 11
net 3 EE
net 4 xx
clear
put 0 x
net 0 11";

pub(crate) const CONSTANT: &str = "\
part constant > 0
outputs 0
rows - -
net 0 x11
table 1 - 1,1 1,0
table 0 1:settle";

pub(crate) const TOGGLE: &str = "\
part flipflop 1 2 > 0 1
outputs 0
clocks 2
rows - - - -
table 1 - 0,5,5,0 1,0,5,0 0,0,5,0 1,0,5,0";

pub(crate) const FLIP_FLOP: &str = "\
part flipflop 0 1 > 2 3
pins 0 1
outputs 2
put 0 00
put 1 11
put 2 10
put 3 01
net 2 xxxxx0110";

pub(crate) const CLOCKED_LOOP: &str = "\
part and 0 2 > 1
part not 1 > 2
outputs 1
clocks 0
rows -
table 9 1:rise";
