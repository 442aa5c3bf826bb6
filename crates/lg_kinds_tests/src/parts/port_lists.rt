//! Components of every kind that no record changes.

pub const PORT_LISTS: &str = "|Pin|width=1|-| p:Both:0,0:1:Unknown
|Pin|width=64|-| p:Both:0,0:64:Unknown
|Pin|output=true;facing=west|-| p:Both:0,0:1:Unknown
|Tunnel|width=32;facing=south|-| p:Both:0,0:32:Unknown
|Clock||-| p:Both:0,0:1:Unknown
|Clock|facing=north|-| p:Both:0,0:1:Unknown
|Constant|width=8;value=0xff|1| out:Out:0,0:8:Unknown
|Power|width=64|1| out:Out:0,0:64:Unknown
|Ground||1| out:Out:0,0:1:Unknown
|Pull Resistor|pull=X|-| p:Both:0,0:0:Unknown
|Bit Extender||1| in:In:-40,0:8:Unknown out:Out:0,0:16:Unknown
|Bit Extender|in_width=1;out_width=64;type=sign|1| in:In:-40,0:1:Unknown out:Out:0,0:64:Unknown
|Bit Extender|type=input;in_width=64;out_width=1;facing=east|1| in:In:-40,0:64:Unknown ext:In:-20,-20:1:Unknown out:Out:0,0:1:Unknown
|Bit Extender|type=input;in_width=64;out_width=1;facing=west|1| in:In:40,0:64:Unknown ext:In:20,-20:1:Unknown out:Out:0,0:1:Unknown
|Bit Extender|type=input;in_width=64;out_width=1;facing=north|1| in:In:0,40:64:Unknown ext:In:-20,20:1:Unknown out:Out:0,0:1:Unknown
|Bit Extender|type=input;in_width=64;out_width=1;facing=south|1| in:In:0,-40:64:Unknown ext:In:-20,-20:1:Unknown out:Out:0,0:1:Unknown
|NOT Gate|facing=east;size=20;width=4|1| in:In:-20,0:4:Unknown out:Out:0,0:4:Unknown
|NOT Gate|facing=west;size=20;width=4|1| in:In:20,0:4:Unknown out:Out:0,0:4:Unknown
|NOT Gate|facing=north;size=20;width=4|1| in:In:0,20:4:Unknown out:Out:0,0:4:Unknown
|NOT Gate|facing=south;size=20;width=4|1| in:In:0,-20:4:Unknown out:Out:0,0:4:Unknown
|NOT Gate||1| in:In:-30,0:1:Unknown out:Out:0,0:1:Unknown
|Buffer|facing=east|1| in:In:-20,0:1:Unknown out:Out:0,0:1:Unknown
|Buffer|facing=west|1| in:In:20,0:1:Unknown out:Out:0,0:1:Unknown
|Buffer|facing=north|1| in:In:0,20:1:Unknown out:Out:0,0:1:Unknown
|Buffer|facing=south|1| in:In:0,-20:1:Unknown out:Out:0,0:1:Unknown
|AND Gate|size=30;inputs=2|1| in0:In:-30,-10:1:Ignored in1:In:-30,10:1:Ignored out:Out:0,0:1:Unknown
|AND Gate|size=30;inputs=3|1| in0:In:-30,-10:1:Ignored in1:In:-30,0:1:Ignored in2:In:-30,10:1:Ignored out:Out:0,0:1:Unknown
|AND Gate|size=30;inputs=4|1| in0:In:-30,-20:1:Ignored in1:In:-30,-10:1:Ignored in2:In:-30,10:1:Ignored in3:In:-30,20:1:Ignored out:Out:0,0:1:Unknown
|AND Gate|size=30;inputs=5|1| in0:In:-30,-20:1:Ignored in1:In:-30,-10:1:Ignored in2:In:-30,0:1:Ignored in3:In:-30,10:1:Ignored in4:In:-30,20:1:Ignored out:Out:0,0:1:Unknown
|AND Gate|size=30;inputs=6|1| in0:In:-30,-30:1:Ignored in1:In:-30,-20:1:Ignored in2:In:-30,-10:1:Ignored in3:In:-30,10:1:Ignored in4:In:-30,20:1:Ignored in5:In:-30,30:1:Ignored out:Out:0,0:1:Unknown
|AND Gate|size=50;inputs=2|1| in0:In:-50,-20:1:Ignored in1:In:-50,20:1:Ignored out:Out:0,0:1:Unknown
|AND Gate|size=50;inputs=3|1| in0:In:-50,-20:1:Ignored in1:In:-50,0:1:Ignored in2:In:-50,20:1:Ignored out:Out:0,0:1:Unknown
|AND Gate|size=50;inputs=4|1| in0:In:-50,-20:1:Ignored in1:In:-50,-10:1:Ignored in2:In:-50,10:1:Ignored in3:In:-50,20:1:Ignored out:Out:0,0:1:Unknown
|AND Gate|size=50;inputs=5|1| in0:In:-50,-20:1:Ignored in1:In:-50,-10:1:Ignored in2:In:-50,0:1:Ignored in3:In:-50,10:1:Ignored in4:In:-50,20:1:Ignored out:Out:0,0:1:Unknown
|AND Gate|size=50;inputs=6|1| in0:In:-50,-30:1:Ignored in1:In:-50,-20:1:Ignored in2:In:-50,-10:1:Ignored in3:In:-50,10:1:Ignored in4:In:-50,20:1:Ignored in5:In:-50,30:1:Ignored out:Out:0,0:1:Unknown
|AND Gate|size=70;inputs=2|1| in0:In:-70,-20:1:Ignored in1:In:-70,20:1:Ignored out:Out:0,0:1:Unknown
|AND Gate|size=70;inputs=3|1| in0:In:-70,-30:1:Ignored in1:In:-70,0:1:Ignored in2:In:-70,30:1:Ignored out:Out:0,0:1:Unknown
|AND Gate|size=70;inputs=4|1| in0:In:-70,-30:1:Ignored in1:In:-70,-10:1:Ignored in2:In:-70,10:1:Ignored in3:In:-70,30:1:Ignored out:Out:0,0:1:Unknown
|AND Gate|size=70;inputs=5|1| in0:In:-70,-20:1:Ignored in1:In:-70,-10:1:Ignored in2:In:-70,0:1:Ignored in3:In:-70,10:1:Ignored in4:In:-70,20:1:Ignored out:Out:0,0:1:Unknown
|AND Gate|size=70;inputs=6|1| in0:In:-70,-30:1:Ignored in1:In:-70,-20:1:Ignored in2:In:-70,-10:1:Ignored in3:In:-70,10:1:Ignored in4:In:-70,20:1:Ignored in5:In:-70,30:1:Ignored out:Out:0,0:1:Unknown
|AND Gate|size=30;inputs=64;width=64|1| in0:In:-30,-320:64:Ignored in1:In:-30,-310:64:Ignored in2:In:-30,-300:64:Ignored in3:In:-30,-290:64:Ignored in4:In:-30,-280:64:Ignored in5:In:-30,-270:64:Ignored in6:In:-30,-260:64:Ignored in7:In:-30,-250:64:Ignored in8:In:-30,-240:64:Ignored in9:In:-30,-230:64:Ignored in10:In:-30,-220:64:Ignored in11:In:-30,-210:64:Ignored in12:In:-30,-200:64:Ignored in13:In:-30,-190:64:Ignored in14:In:-30,-180:64:Ignored in15:In:-30,-170:64:Ignored in16:In:-30,-160:64:Ignored in17:In:-30,-150:64:Ignored in18:In:-30,-140:64:Ignored in19:In:-30,-130:64:Ignored in20:In:-30,-120:64:Ignored in21:In:-30,-110:64:Ignored in22:In:-30,-100:64:Ignored in23:In:-30,-90:64:Ignored in24:In:-30,-80:64:Ignored in25:In:-30,-70:64:Ignored in26:In:-30,-60:64:Ignored in27:In:-30,-50:64:Ignored in28:In:-30,-40:64:Ignored in29:In:-30,-30:64:Ignored in30:In:-30,-20:64:Ignored in31:In:-30,-10:64:Ignored in32:In:-30,10:64:Ignored in33:In:-30,20:64:Ignored in34:In:-30,30:64:Ignored in35:In:-30,40:64:Ignored in36:In:-30,50:64:Ignored in37:In:-30,60:64:Ignored in38:In:-30,70:64:Ignored in39:In:-30,80:64:Ignored in40:In:-30,90:64:Ignored in41:In:-30,100:64:Ignored in42:In:-30,110:64:Ignored in43:In:-30,120:64:Ignored in44:In:-30,130:64:Ignored in45:In:-30,140:64:Ignored in46:In:-30,150:64:Ignored in47:In:-30,160:64:Ignored in48:In:-30,170:64:Ignored in49:In:-30,180:64:Ignored in50:In:-30,190:64:Ignored in51:In:-30,200:64:Ignored in52:In:-30,210:64:Ignored in53:In:-30,220:64:Ignored in54:In:-30,230:64:Ignored in55:In:-30,240:64:Ignored in56:In:-30,250:64:Ignored in57:In:-30,260:64:Ignored in58:In:-30,270:64:Ignored in59:In:-30,280:64:Ignored in60:In:-30,290:64:Ignored in61:In:-30,300:64:Ignored in62:In:-30,310:64:Ignored in63:In:-30,320:64:Ignored out:Out:0,0:64:Unknown
|AND Gate|size=70;inputs=63;negate62=true|1| in0:In:-70,-310:1:Ignored in1:In:-70,-300:1:Ignored in2:In:-70,-290:1:Ignored in3:In:-70,-280:1:Ignored in4:In:-70,-270:1:Ignored in5:In:-70,-260:1:Ignored in6:In:-70,-250:1:Ignored in7:In:-70,-240:1:Ignored in8:In:-70,-230:1:Ignored in9:In:-70,-220:1:Ignored in10:In:-70,-210:1:Ignored in11:In:-70,-200:1:Ignored in12:In:-70,-190:1:Ignored in13:In:-70,-180:1:Ignored in14:In:-70,-170:1:Ignored in15:In:-70,-160:1:Ignored in16:In:-70,-150:1:Ignored in17:In:-70,-140:1:Ignored in18:In:-70,-130:1:Ignored in19:In:-70,-120:1:Ignored in20:In:-70,-110:1:Ignored in21:In:-70,-100:1:Ignored in22:In:-70,-90:1:Ignored in23:In:-70,-80:1:Ignored in24:In:-70,-70:1:Ignored in25:In:-70,-60:1:Ignored in26:In:-70,-50:1:Ignored in27:In:-70,-40:1:Ignored in28:In:-70,-30:1:Ignored in29:In:-70,-20:1:Ignored in30:In:-70,-10:1:Ignored in31:In:-70,0:1:Ignored in32:In:-70,10:1:Ignored in33:In:-70,20:1:Ignored in34:In:-70,30:1:Ignored in35:In:-70,40:1:Ignored in36:In:-70,50:1:Ignored in37:In:-70,60:1:Ignored in38:In:-70,70:1:Ignored in39:In:-70,80:1:Ignored in40:In:-70,90:1:Ignored in41:In:-70,100:1:Ignored in42:In:-70,110:1:Ignored in43:In:-70,120:1:Ignored in44:In:-70,130:1:Ignored in45:In:-70,140:1:Ignored in46:In:-70,150:1:Ignored in47:In:-70,160:1:Ignored in48:In:-70,170:1:Ignored in49:In:-70,180:1:Ignored in50:In:-70,190:1:Ignored in51:In:-70,200:1:Ignored in52:In:-70,210:1:Ignored in53:In:-70,220:1:Ignored in54:In:-70,230:1:Ignored in55:In:-70,240:1:Ignored in56:In:-70,250:1:Ignored in57:In:-70,260:1:Ignored in58:In:-70,270:1:Ignored in59:In:-70,280:1:Ignored in60:In:-70,290:1:Ignored in61:In:-70,300:1:Ignored in62:In:-80,310:1:Ignored out:Out:0,0:1:Unknown
|OR Gate|negate1=true|1| in0:In:-50,-20:1:Ignored in1:In:-60,20:1:Ignored out:Out:0,0:1:Unknown
|NAND Gate|negate1=true|1| in0:In:-60,-20:1:Ignored in1:In:-70,20:1:Ignored out:Out:0,0:1:Unknown
|NOR Gate|negate1=true|1| in0:In:-60,-20:1:Ignored in1:In:-70,20:1:Ignored out:Out:0,0:1:Unknown
|XOR Gate|negate1=true|1| in0:In:-60,-20:1:Ignored in1:In:-70,20:1:Ignored out:Out:0,0:1:Unknown
|XNOR Gate|negate1=true|1| in0:In:-70,-20:1:Ignored in1:In:-80,20:1:Ignored out:Out:0,0:1:Unknown
|Odd Parity|negate1=true|1| in0:In:-50,-20:1:Ignored in1:In:-60,20:1:Ignored out:Out:0,0:1:Unknown
|Even Parity|negate1=true|1| in0:In:-60,-20:1:Ignored in1:In:-70,20:1:Ignored out:Out:0,0:1:Unknown
|XNOR Gate|facing=east;size=70;inputs=4;negate0=true;negate3=true;width=16|1| in0:In:-100,-30:16:Ignored in1:In:-90,-10:16:Ignored in2:In:-90,10:16:Ignored in3:In:-100,30:16:Ignored out:Out:0,0:16:Unknown
|XNOR Gate|facing=west;size=70;inputs=4;negate0=true;negate3=true;width=16|1| in0:In:100,-30:16:Ignored in1:In:90,-10:16:Ignored in2:In:90,10:16:Ignored in3:In:100,30:16:Ignored out:Out:0,0:16:Unknown
|XNOR Gate|facing=north;size=70;inputs=4;negate0=true;negate3=true;width=16|1| in0:In:-30,100:16:Ignored in1:In:-10,90:16:Ignored in2:In:10,90:16:Ignored in3:In:30,100:16:Ignored out:Out:0,0:16:Unknown
|XNOR Gate|facing=south;size=70;inputs=4;negate0=true;negate3=true;width=16|1| in0:In:-30,-100:16:Ignored in1:In:-10,-90:16:Ignored in2:In:10,-90:16:Ignored in3:In:30,-100:16:Ignored out:Out:0,0:16:Unknown
|Even Parity|size=30;inputs=5;facing=south|1| in0:In:-20,-40:1:Ignored in1:In:-10,-40:1:Ignored in2:In:0,-40:1:Ignored in3:In:10,-40:1:Ignored in4:In:20,-40:1:Ignored out:Out:0,0:1:Unknown
|Odd Parity|inputs=6;negate5=true;negate6=true|1| in0:In:-50,-30:1:Ignored in1:In:-50,-20:1:Ignored in2:In:-50,-10:1:Ignored in3:In:-50,10:1:Ignored in4:In:-50,20:1:Ignored in5:In:-60,30:1:Ignored out:Out:0,0:1:Unknown
|Controlled Buffer|facing=east;width=8|1| in:In:-20,0:8:Unknown ctl:In:-10,10:1:Unknown out:Out:0,0:8:Unknown
|Controlled Buffer|facing=west;width=8|1| in:In:20,0:8:Unknown ctl:In:10,10:1:Unknown out:Out:0,0:8:Unknown
|Controlled Buffer|facing=north;width=8|1| in:In:0,20:8:Unknown ctl:In:10,10:1:Unknown out:Out:0,0:8:Unknown
|Controlled Buffer|facing=south;width=8|1| in:In:0,-20:8:Unknown ctl:In:10,-10:1:Unknown out:Out:0,0:8:Unknown
|Controlled Buffer|control=left|1| in:In:-20,0:1:Unknown ctl:In:-10,-10:1:Unknown out:Out:0,0:1:Unknown
|Controlled Inverter|facing=east;control=left|1| in:In:-30,0:1:Unknown ctl:In:-10,-10:1:Unknown out:Out:0,0:1:Unknown
|Controlled Inverter|facing=west;control=left|1| in:In:30,0:1:Unknown ctl:In:10,-10:1:Unknown out:Out:0,0:1:Unknown
|Controlled Inverter|facing=north;control=left|1| in:In:0,30:1:Unknown ctl:In:-10,10:1:Unknown out:Out:0,0:1:Unknown
|Controlled Inverter|facing=south;control=left|1| in:In:0,-30:1:Unknown ctl:In:-10,-10:1:Unknown out:Out:0,0:1:Unknown
|Multiplexer|select=1;width=1|3| in0:In:-30,-10:1:Unknown in1:In:-30,10:1:Unknown sel:In:-20,20:1:Unknown out:Out:0,0:1:Unknown
|Multiplexer|select=2;width=2|3| in0:In:-40,-20:2:Unknown in1:In:-40,-10:2:Unknown in2:In:-40,0:2:Unknown in3:In:-40,10:2:Unknown sel:In:-20,30:2:Unknown out:Out:0,0:2:Unknown
|Multiplexer|select=3;width=3|3| in0:In:-50,-40:3:Unknown in1:In:-50,-30:3:Unknown in2:In:-50,-20:3:Unknown in3:In:-50,-10:3:Unknown in4:In:-50,0:3:Unknown in5:In:-50,10:3:Unknown in6:In:-50,20:3:Unknown in7:In:-50,30:3:Unknown sel:In:-20,50:3:Unknown out:Out:0,0:3:Unknown
|Multiplexer|select=4;width=4|3| in0:In:-50,-80:4:Unknown in1:In:-50,-70:4:Unknown in2:In:-50,-60:4:Unknown in3:In:-50,-50:4:Unknown in4:In:-50,-40:4:Unknown in5:In:-50,-30:4:Unknown in6:In:-50,-20:4:Unknown in7:In:-50,-10:4:Unknown in8:In:-50,0:4:Unknown in9:In:-50,10:4:Unknown in10:In:-50,20:4:Unknown in11:In:-50,30:4:Unknown in12:In:-50,40:4:Unknown in13:In:-50,50:4:Unknown in14:In:-50,60:4:Unknown in15:In:-50,70:4:Unknown sel:In:-20,90:4:Unknown out:Out:0,0:4:Unknown
|Multiplexer|select=5;width=64|3| in0:In:-50,-160:64:Unknown in1:In:-50,-150:64:Unknown in2:In:-50,-140:64:Unknown in3:In:-50,-130:64:Unknown in4:In:-50,-120:64:Unknown in5:In:-50,-110:64:Unknown in6:In:-50,-100:64:Unknown in7:In:-50,-90:64:Unknown in8:In:-50,-80:64:Unknown in9:In:-50,-70:64:Unknown in10:In:-50,-60:64:Unknown in11:In:-50,-50:64:Unknown in12:In:-50,-40:64:Unknown in13:In:-50,-30:64:Unknown in14:In:-50,-20:64:Unknown in15:In:-50,-10:64:Unknown in16:In:-50,0:64:Unknown in17:In:-50,10:64:Unknown in18:In:-50,20:64:Unknown in19:In:-50,30:64:Unknown in20:In:-50,40:64:Unknown in21:In:-50,50:64:Unknown in22:In:-50,60:64:Unknown in23:In:-50,70:64:Unknown in24:In:-50,80:64:Unknown in25:In:-50,90:64:Unknown in26:In:-50,100:64:Unknown in27:In:-50,110:64:Unknown in28:In:-50,120:64:Unknown in29:In:-50,130:64:Unknown in30:In:-50,140:64:Unknown in31:In:-50,150:64:Unknown sel:In:-20,170:5:Unknown out:Out:0,0:64:Unknown
|Multiplexer|select=1;enable=true;selloc=tr|3| in0:In:-30,-10:1:Unknown in1:In:-30,10:1:Unknown sel:In:-20,-20:1:Unknown en:In:-10,-20:1:One out:Out:0,0:1:Unknown
|Multiplexer|select=2;enable=true;selloc=tr|3| in0:In:-40,-20:1:Unknown in1:In:-40,-10:1:Unknown in2:In:-40,0:1:Unknown in3:In:-40,10:1:Unknown sel:In:-20,-30:2:Unknown en:In:-10,-30:1:One out:Out:0,0:1:Unknown
|Multiplexer|select=3;enable=true;selloc=tr|3| in0:In:-50,-40:1:Unknown in1:In:-50,-30:1:Unknown in2:In:-50,-20:1:Unknown in3:In:-50,-10:1:Unknown in4:In:-50,0:1:Unknown in5:In:-50,10:1:Unknown in6:In:-50,20:1:Unknown in7:In:-50,30:1:Unknown sel:In:-20,-50:3:Unknown en:In:-10,-50:1:One out:Out:0,0:1:Unknown
|Multiplexer|facing=east;select=2;enable=true|3| in0:In:-40,-20:1:Unknown in1:In:-40,-10:1:Unknown in2:In:-40,0:1:Unknown in3:In:-40,10:1:Unknown sel:In:-20,30:2:Unknown en:In:-10,30:1:One out:Out:0,0:1:Unknown
|Multiplexer|facing=west;select=2;enable=true|3| in0:In:40,-20:1:Unknown in1:In:40,-10:1:Unknown in2:In:40,0:1:Unknown in3:In:40,10:1:Unknown sel:In:20,30:2:Unknown en:In:10,30:1:One out:Out:0,0:1:Unknown
|Multiplexer|facing=north;select=2;enable=true|3| in0:In:-20,40:1:Unknown in1:In:-10,40:1:Unknown in2:In:0,40:1:Unknown in3:In:10,40:1:Unknown sel:In:30,20:2:Unknown en:In:30,10:1:One out:Out:0,0:1:Unknown
|Multiplexer|facing=south;select=2;enable=true|3| in0:In:-20,-40:1:Unknown in1:In:-10,-40:1:Unknown in2:In:0,-40:1:Unknown in3:In:10,-40:1:Unknown sel:In:30,-20:2:Unknown en:In:30,-10:1:One out:Out:0,0:1:Unknown
|Demultiplexer|select=1|3| in:In:0,0:1:Unknown sel:In:20,20:1:Unknown out0:Out:30,-10:1:Unknown out1:Out:30,10:1:Unknown
|Demultiplexer|select=2|3| in:In:0,0:1:Unknown sel:In:20,30:2:Unknown out0:Out:40,-20:1:Unknown out1:Out:40,-10:1:Unknown out2:Out:40,0:1:Unknown out3:Out:40,10:1:Unknown
|Demultiplexer|select=3|3| in:In:0,0:1:Unknown sel:In:20,50:3:Unknown out0:Out:50,-40:1:Unknown out1:Out:50,-30:1:Unknown out2:Out:50,-20:1:Unknown out3:Out:50,-10:1:Unknown out4:Out:50,0:1:Unknown out5:Out:50,10:1:Unknown out6:Out:50,20:1:Unknown out7:Out:50,30:1:Unknown
|Demultiplexer|select=5|3| in:In:0,0:1:Unknown sel:In:20,170:5:Unknown out0:Out:50,-160:1:Unknown out1:Out:50,-150:1:Unknown out2:Out:50,-140:1:Unknown out3:Out:50,-130:1:Unknown out4:Out:50,-120:1:Unknown out5:Out:50,-110:1:Unknown out6:Out:50,-100:1:Unknown out7:Out:50,-90:1:Unknown out8:Out:50,-80:1:Unknown out9:Out:50,-70:1:Unknown out10:Out:50,-60:1:Unknown out11:Out:50,-50:1:Unknown out12:Out:50,-40:1:Unknown out13:Out:50,-30:1:Unknown out14:Out:50,-20:1:Unknown out15:Out:50,-10:1:Unknown out16:Out:50,0:1:Unknown out17:Out:50,10:1:Unknown out18:Out:50,20:1:Unknown out19:Out:50,30:1:Unknown out20:Out:50,40:1:Unknown out21:Out:50,50:1:Unknown out22:Out:50,60:1:Unknown out23:Out:50,70:1:Unknown out24:Out:50,80:1:Unknown out25:Out:50,90:1:Unknown out26:Out:50,100:1:Unknown out27:Out:50,110:1:Unknown out28:Out:50,120:1:Unknown out29:Out:50,130:1:Unknown out30:Out:50,140:1:Unknown out31:Out:50,150:1:Unknown
|Demultiplexer|facing=east;select=2;enable=true;selloc=tr;width=8|3| in:In:0,0:8:Unknown sel:In:20,-30:2:Unknown en:In:10,-30:1:One out0:Out:40,-20:8:Unknown out1:Out:40,-10:8:Unknown out2:Out:40,0:8:Unknown out3:Out:40,10:8:Unknown
|Demultiplexer|facing=west;select=2;enable=true;selloc=tr;width=8|3| in:In:0,0:8:Unknown sel:In:-20,-30:2:Unknown en:In:-10,-30:1:One out0:Out:-40,-20:8:Unknown out1:Out:-40,-10:8:Unknown out2:Out:-40,0:8:Unknown out3:Out:-40,10:8:Unknown
|Demultiplexer|facing=north;select=2;enable=true;selloc=tr;width=8|3| in:In:0,0:8:Unknown sel:In:-30,-20:2:Unknown en:In:-30,-10:1:One out0:Out:-20,-40:8:Unknown out1:Out:-10,-40:8:Unknown out2:Out:0,-40:8:Unknown out3:Out:10,-40:8:Unknown
|Demultiplexer|facing=south;select=2;enable=true;selloc=tr;width=8|3| in:In:0,0:8:Unknown sel:In:-30,20:2:Unknown en:In:-30,10:1:One out0:Out:-20,40:8:Unknown out1:Out:-10,40:8:Unknown out2:Out:0,40:8:Unknown out3:Out:10,40:8:Unknown
|Decoder|select=1|3| sel:In:0,0:1:Unknown out0:Out:20,-10:1:Unknown out1:Out:20,10:1:Unknown
|Decoder|select=2|3| sel:In:0,0:2:Unknown out0:Out:20,-20:1:Unknown out1:Out:20,-10:1:Unknown out2:Out:20,0:1:Unknown out3:Out:20,10:1:Unknown
|Decoder|select=3|3| sel:In:0,0:3:Unknown out0:Out:20,-40:1:Unknown out1:Out:20,-30:1:Unknown out2:Out:20,-20:1:Unknown out3:Out:20,-10:1:Unknown out4:Out:20,0:1:Unknown out5:Out:20,10:1:Unknown out6:Out:20,20:1:Unknown out7:Out:20,30:1:Unknown
|Decoder|select=5|3| sel:In:0,0:5:Unknown out0:Out:20,-160:1:Unknown out1:Out:20,-150:1:Unknown out2:Out:20,-140:1:Unknown out3:Out:20,-130:1:Unknown out4:Out:20,-120:1:Unknown out5:Out:20,-110:1:Unknown out6:Out:20,-100:1:Unknown out7:Out:20,-90:1:Unknown out8:Out:20,-80:1:Unknown out9:Out:20,-70:1:Unknown out10:Out:20,-60:1:Unknown out11:Out:20,-50:1:Unknown out12:Out:20,-40:1:Unknown out13:Out:20,-30:1:Unknown out14:Out:20,-20:1:Unknown out15:Out:20,-10:1:Unknown out16:Out:20,0:1:Unknown out17:Out:20,10:1:Unknown out18:Out:20,20:1:Unknown out19:Out:20,30:1:Unknown out20:Out:20,40:1:Unknown out21:Out:20,50:1:Unknown out22:Out:20,60:1:Unknown out23:Out:20,70:1:Unknown out24:Out:20,80:1:Unknown out25:Out:20,90:1:Unknown out26:Out:20,100:1:Unknown out27:Out:20,110:1:Unknown out28:Out:20,120:1:Unknown out29:Out:20,130:1:Unknown out30:Out:20,140:1:Unknown out31:Out:20,150:1:Unknown
|Decoder|facing=east;select=1;enable=true|3| sel:In:0,0:1:Unknown en:In:-10,0:1:One out0:Out:20,-10:1:Unknown out1:Out:20,10:1:Unknown
|Decoder|facing=west;select=1;enable=true|3| sel:In:0,0:1:Unknown en:In:10,0:1:One out0:Out:-20,-10:1:Unknown out1:Out:-20,10:1:Unknown
|Decoder|facing=north;select=1;enable=true|3| sel:In:0,0:1:Unknown en:In:0,10:1:One out0:Out:-10,-20:1:Unknown out1:Out:10,-20:1:Unknown
|Decoder|facing=south;select=1;enable=true|3| sel:In:0,0:1:Unknown en:In:0,-10:1:One out0:Out:-10,20:1:Unknown out1:Out:10,20:1:Unknown
|Priority Encoder|select=1|3| in0:In:-40,-10:1:Zero in1:In:-40,10:1:Zero en:In:-20,20:1:One addr:Out:0,0:1:Unknown group:Out:0,10:1:Unknown eout:Out:-20,-20:1:Unknown
|Priority Encoder|select=2|3| in0:In:-40,-20:1:Zero in1:In:-40,-10:1:Zero in2:In:-40,0:1:Zero in3:In:-40,10:1:Zero en:In:-20,30:1:One addr:Out:0,0:2:Unknown group:Out:0,10:1:Unknown eout:Out:-20,-30:1:Unknown
|Priority Encoder|select=5|3| in0:In:-40,-160:1:Zero in1:In:-40,-150:1:Zero in2:In:-40,-140:1:Zero in3:In:-40,-130:1:Zero in4:In:-40,-120:1:Zero in5:In:-40,-110:1:Zero in6:In:-40,-100:1:Zero in7:In:-40,-90:1:Zero in8:In:-40,-80:1:Zero in9:In:-40,-70:1:Zero in10:In:-40,-60:1:Zero in11:In:-40,-50:1:Zero in12:In:-40,-40:1:Zero in13:In:-40,-30:1:Zero in14:In:-40,-20:1:Zero in15:In:-40,-10:1:Zero in16:In:-40,0:1:Zero in17:In:-40,10:1:Zero in18:In:-40,20:1:Zero in19:In:-40,30:1:Zero in20:In:-40,40:1:Zero in21:In:-40,50:1:Zero in22:In:-40,60:1:Zero in23:In:-40,70:1:Zero in24:In:-40,80:1:Zero in25:In:-40,90:1:Zero in26:In:-40,100:1:Zero in27:In:-40,110:1:Zero in28:In:-40,120:1:Zero in29:In:-40,130:1:Zero in30:In:-40,140:1:Zero in31:In:-40,150:1:Zero en:In:-20,170:1:One addr:Out:0,0:5:Unknown group:Out:0,10:1:Unknown eout:Out:-20,-170:1:Unknown
|Priority Encoder|facing=east;select=2|3| in0:In:-40,-20:1:Zero in1:In:-40,-10:1:Zero in2:In:-40,0:1:Zero in3:In:-40,10:1:Zero en:In:-20,30:1:One addr:Out:0,0:2:Unknown group:Out:0,10:1:Unknown eout:Out:-20,-30:1:Unknown
|Priority Encoder|facing=west;select=2|3| in0:In:40,-20:1:Zero in1:In:40,-10:1:Zero in2:In:40,0:1:Zero in3:In:40,10:1:Zero en:In:20,30:1:One addr:Out:0,0:2:Unknown group:Out:0,10:1:Unknown eout:Out:20,-30:1:Unknown
|Priority Encoder|facing=north;select=2|3| in0:In:-20,40:1:Zero in1:In:-10,40:1:Zero in2:In:0,40:1:Zero in3:In:10,40:1:Zero en:In:30,20:1:One addr:Out:0,0:2:Unknown group:Out:10,0:1:Unknown eout:Out:-30,20:1:Unknown
|Priority Encoder|facing=south;select=2|3| in0:In:-20,-40:1:Zero in1:In:-10,-40:1:Zero in2:In:0,-40:1:Zero in3:In:10,-40:1:Zero en:In:30,-20:1:One addr:Out:0,0:2:Unknown group:Out:10,0:1:Unknown eout:Out:-30,-20:1:Unknown
|Priority Encoder||3| in0:In:-40,-40:1:Zero in1:In:-40,-30:1:Zero in2:In:-40,-20:1:Zero in3:In:-40,-10:1:Zero in4:In:-40,0:1:Zero in5:In:-40,10:1:Zero in6:In:-40,20:1:Zero in7:In:-40,30:1:Zero en:In:-20,50:1:One addr:Out:0,0:3:Unknown group:Out:0,10:1:Unknown eout:Out:-20,-50:1:Unknown
|BitSelector|width=8;group=1|3| in:In:-30,0:8:Unknown sel:In:-10,10:3:Unknown out:Out:0,0:1:Unknown
|BitSelector|width=64;group=1|3| in:In:-30,0:64:Unknown sel:In:-10,10:6:Unknown out:Out:0,0:1:Unknown
|BitSelector|width=64;group=64|3| in:In:-30,0:64:Unknown sel:In:-10,10:1:Unknown out:Out:0,0:64:Unknown
|BitSelector|width=1;group=1|3| in:In:-30,0:1:Unknown sel:In:-10,10:1:Unknown out:Out:0,0:1:Unknown
|BitSelector|width=20;group=3|3| in:In:-30,0:20:Unknown sel:In:-10,10:3:Unknown out:Out:0,0:3:Unknown
|BitSelector|width=7;group=2|3| in:In:-30,0:7:Unknown sel:In:-10,10:2:Unknown out:Out:0,0:2:Unknown
|BitSelector|width=64;group=33|3| in:In:-30,0:64:Unknown sel:In:-10,10:1:Unknown out:Out:0,0:33:Unknown
|BitSelector|width=9;group=4|3| in:In:-30,0:9:Unknown sel:In:-10,10:2:Unknown out:Out:0,0:4:Unknown
|BitSelector|facing=west|3| in:In:30,0:8:Unknown sel:In:10,10:3:Unknown out:Out:0,0:1:Unknown
|BitSelector|facing=north|3| in:In:0,30:8:Unknown sel:In:10,10:3:Unknown out:Out:0,0:1:Unknown
|BitSelector|facing=south|3| in:In:0,-30:8:Unknown sel:In:10,-10:3:Unknown out:Out:0,0:1:Unknown
|Adder||10| a:In:-40,-10:8:Unknown b:In:-40,10:8:Unknown cin:In:-20,-20:1:Zero out:Out:0,0:8:Unknown cout:Out:-20,20:1:Unknown
|Adder|width=1;facing=west|3| a:In:40,-10:1:Unknown b:In:40,10:1:Unknown cin:In:20,-20:1:Zero out:Out:0,0:1:Unknown cout:Out:20,20:1:Unknown
|Adder|width=64;facing=north|66| a:In:-10,40:64:Unknown b:In:10,40:64:Unknown cin:In:-20,20:1:Zero out:Out:0,0:64:Unknown cout:Out:20,20:1:Unknown
|Subtractor||10| a:In:-40,-10:8:Unknown b:In:-40,10:8:Unknown cin:In:-20,-20:1:Zero out:Out:0,0:8:Unknown cout:Out:-20,20:1:Unknown
|Subtractor|width=1;facing=west|3| a:In:40,-10:1:Unknown b:In:40,10:1:Unknown cin:In:20,-20:1:Zero out:Out:0,0:1:Unknown cout:Out:20,20:1:Unknown
|Subtractor|width=64;facing=north|66| a:In:-10,40:64:Unknown b:In:10,40:64:Unknown cin:In:-20,20:1:Zero out:Out:0,0:64:Unknown cout:Out:20,20:1:Unknown
|Multiplier||80| a:In:-40,-10:8:Unknown b:In:-40,10:8:Unknown cin:In:-20,-20:8:Zero out:Out:0,0:8:Unknown high:Out:-20,20:8:Unknown
|Multiplier|width=1;facing=west|3| a:In:40,-10:1:Unknown b:In:40,10:1:Unknown cin:In:20,-20:1:Zero out:Out:0,0:1:Unknown high:Out:20,20:1:Unknown
|Multiplier|width=64;facing=north|255| a:In:-10,40:64:Unknown b:In:10,40:64:Unknown cin:In:-20,20:64:Zero out:Out:0,0:64:Unknown high:Out:20,20:64:Unknown
|Divider||80| a:In:-40,-10:8:Unknown b:In:-40,10:8:Unknown upper:In:-20,-20:8:Zero out:Out:0,0:8:Unknown rem:Out:-20,20:8:Unknown
|Divider|width=1;facing=west|3| a:In:40,-10:1:Unknown b:In:40,10:1:Unknown upper:In:20,-20:1:Zero out:Out:0,0:1:Unknown rem:Out:20,20:1:Unknown
|Divider|width=64;facing=north|255| a:In:-10,40:64:Unknown b:In:10,40:64:Unknown upper:In:-20,20:64:Zero out:Out:0,0:64:Unknown rem:Out:20,20:64:Unknown
|Negator||10| in:In:-40,0:8:Unknown out:Out:0,0:8:Unknown
|Negator|width=1;facing=west|3| in:In:40,0:1:Unknown out:Out:0,0:1:Unknown
|Negator|width=64;facing=north|66| in:In:0,40:64:Unknown out:Out:0,0:64:Unknown
|Comparator||10| a:In:-40,-10:8:Unknown b:In:-40,10:8:Unknown gt:Out:0,-10:1:Unknown eq:Out:0,0:1:Unknown lt:Out:0,10:1:Unknown
|Comparator|width=1;facing=west|3| a:In:40,-10:1:Unknown b:In:40,10:1:Unknown gt:Out:0,-10:1:Unknown eq:Out:0,0:1:Unknown lt:Out:0,10:1:Unknown
|Comparator|width=64;facing=north|66| a:In:-10,40:64:Unknown b:In:10,40:64:Unknown gt:Out:-10,0:1:Unknown eq:Out:0,0:1:Unknown lt:Out:10,0:1:Unknown
|Shifter||10| in:In:-40,-10:8:Unknown dist:In:-40,10:3:Unknown out:Out:0,0:8:Unknown
|Shifter|width=1;facing=west|3| in:In:40,-10:1:Unknown dist:In:40,10:1:Unknown out:Out:0,0:1:Unknown
|Shifter|width=64;facing=north|66| in:In:-10,40:64:Unknown dist:In:10,40:6:Unknown out:Out:0,0:64:Unknown
|Adder|facing=south|10| a:In:-10,-40:8:Unknown b:In:10,-40:8:Unknown cin:In:-20,-20:1:Zero out:Out:0,0:8:Unknown cout:Out:20,-20:1:Unknown
|Divider|facing=south|80| a:In:-10,-40:8:Unknown b:In:10,-40:8:Unknown upper:In:-20,-20:8:Zero out:Out:0,0:8:Unknown rem:Out:20,-20:8:Unknown
|Shifter|width=2|4| in:In:-40,-10:2:Unknown dist:In:-40,10:1:Unknown out:Out:0,0:2:Unknown
|Shifter|width=3|5| in:In:-40,-10:3:Unknown dist:In:-40,10:2:Unknown out:Out:0,0:3:Unknown
|Shifter|width=4|6| in:In:-40,-10:4:Unknown dist:In:-40,10:2:Unknown out:Out:0,0:4:Unknown
|Shifter|width=5|7| in:In:-40,-10:5:Unknown dist:In:-40,10:3:Unknown out:Out:0,0:5:Unknown
|Shifter|width=32|34| in:In:-40,-10:32:Unknown dist:In:-40,10:5:Unknown out:Out:0,0:32:Unknown
|Shifter|width=33|35| in:In:-40,-10:33:Unknown dist:In:-40,10:6:Unknown out:Out:0,0:33:Unknown
|BitAdder|inputs=1;width=1|3| in0:In:-40,0:1:Unknown out:Out:0,0:1:Unknown
|BitAdder|inputs=1;width=8|10| in0:In:-40,0:8:Unknown out:Out:0,0:4:Unknown
|BitAdder|inputs=3;width=8|10| in0:In:-40,0:8:Unknown in1:In:-40,10:8:Unknown in2:In:-40,20:8:Unknown out:Out:0,0:5:Unknown
|BitAdder|inputs=64;width=64|66| in0:In:-40,0:64:Unknown in1:In:-40,10:64:Unknown in2:In:-40,20:64:Unknown in3:In:-40,30:64:Unknown in4:In:-40,40:64:Unknown in5:In:-40,50:64:Unknown in6:In:-40,60:64:Unknown in7:In:-40,70:64:Unknown in8:In:-40,80:64:Unknown in9:In:-40,90:64:Unknown in10:In:-40,100:64:Unknown in11:In:-40,110:64:Unknown in12:In:-40,120:64:Unknown in13:In:-40,130:64:Unknown in14:In:-40,140:64:Unknown in15:In:-40,150:64:Unknown in16:In:-40,160:64:Unknown in17:In:-40,170:64:Unknown in18:In:-40,180:64:Unknown in19:In:-40,190:64:Unknown in20:In:-40,200:64:Unknown in21:In:-40,210:64:Unknown in22:In:-40,220:64:Unknown in23:In:-40,230:64:Unknown in24:In:-40,240:64:Unknown in25:In:-40,250:64:Unknown in26:In:-40,260:64:Unknown in27:In:-40,270:64:Unknown in28:In:-40,280:64:Unknown in29:In:-40,290:64:Unknown in30:In:-40,300:64:Unknown in31:In:-40,310:64:Unknown in32:In:-40,320:64:Unknown in33:In:-40,330:64:Unknown in34:In:-40,340:64:Unknown in35:In:-40,350:64:Unknown in36:In:-40,360:64:Unknown in37:In:-40,370:64:Unknown in38:In:-40,380:64:Unknown in39:In:-40,390:64:Unknown in40:In:-40,400:64:Unknown in41:In:-40,410:64:Unknown in42:In:-40,420:64:Unknown in43:In:-40,430:64:Unknown in44:In:-40,440:64:Unknown in45:In:-40,450:64:Unknown in46:In:-40,460:64:Unknown in47:In:-40,470:64:Unknown in48:In:-40,480:64:Unknown in49:In:-40,490:64:Unknown in50:In:-40,500:64:Unknown in51:In:-40,510:64:Unknown in52:In:-40,520:64:Unknown in53:In:-40,530:64:Unknown in54:In:-40,540:64:Unknown in55:In:-40,550:64:Unknown in56:In:-40,560:64:Unknown in57:In:-40,570:64:Unknown in58:In:-40,580:64:Unknown in59:In:-40,590:64:Unknown in60:In:-40,600:64:Unknown in61:In:-40,610:64:Unknown in62:In:-40,620:64:Unknown in63:In:-40,630:64:Unknown out:Out:0,0:13:Unknown
|BitAdder|inputs=7;width=1|3| in0:In:-40,0:1:Unknown in1:In:-40,10:1:Unknown in2:In:-40,20:1:Unknown in3:In:-40,30:1:Unknown in4:In:-40,40:1:Unknown in5:In:-40,50:1:Unknown in6:In:-40,60:1:Unknown out:Out:0,0:3:Unknown
|BitAdder|inputs=8;width=1|3| in0:In:-40,0:1:Unknown in1:In:-40,10:1:Unknown in2:In:-40,20:1:Unknown in3:In:-40,30:1:Unknown in4:In:-40,40:1:Unknown in5:In:-40,50:1:Unknown in6:In:-40,60:1:Unknown in7:In:-40,70:1:Unknown out:Out:0,0:4:Unknown
|BitAdder|inputs=3;facing=south|10| in0:In:0,-40:8:Unknown in1:In:10,-40:8:Unknown in2:In:20,-40:8:Unknown out:Out:0,0:5:Unknown
|D Flip-Flop||5| in:In:-10,10:1:Unknown clk:In:-10,50:1:Unknown pre:In:20,0:1:Zero clr:In:20,60:1:Zero q:Out:50,10:1:Unknown nq:Out:50,50:1:Unknown
|T Flip-Flop||5| in:In:-10,10:1:Unknown clk:In:-10,50:1:Unknown pre:In:20,0:1:Zero clr:In:20,60:1:Zero q:Out:50,10:1:Unknown nq:Out:50,50:1:Unknown
|J-K Flip-Flop||5| in0:In:-10,10:1:Unknown in1:In:-10,30:1:Unknown clk:In:-10,50:1:Unknown pre:In:20,0:1:Zero clr:In:20,60:1:Zero q:Out:50,10:1:Unknown nq:Out:50,50:1:Unknown
|S-R Flip-Flop||5| in0:In:-10,10:1:Unknown in1:In:-10,30:1:Unknown clk:In:-10,50:1:Unknown pre:In:20,0:1:Zero clr:In:20,60:1:Zero q:Out:50,10:1:Unknown nq:Out:50,50:1:Unknown
|D Flip-Flop|facing=north;trigger=high|5| in:In:-10,10:1:Unknown clk:In:-10,50:1:Unknown pre:In:20,0:1:Zero clr:In:20,60:1:Zero q:Out:50,10:1:Unknown nq:Out:50,50:1:Unknown
|Register||8| d:In:0,30:8:Unknown en:In:0,50:1:One clk:In:0,70:1:Unknown clr:In:30,90:1:Zero q:Out:60,30:8:Unknown
|Register|width=1|8| d:In:0,30:1:Unknown en:In:0,50:1:One clk:In:0,70:1:Unknown clr:In:30,90:1:Zero q:Out:60,30:1:Unknown
|Counter||8| d:In:0,110:8:Zero ld:In:0,30:1:Zero ud:In:0,50:1:One en:In:0,70:1:One clk:In:0,80:1:Unknown clr:In:0,20:1:Zero q:Out:140,110:8:Unknown carry:Out:140,50:1:Unknown
|Counter|width=1|8| d:In:0,110:1:Zero ld:In:0,30:1:Zero ud:In:0,50:1:One en:In:0,70:1:One clk:In:0,80:1:Unknown clr:In:0,20:1:Zero q:Out:140,110:1:Unknown carry:Out:140,50:1:Unknown
|Counter|width=64;max=0xff;facing=west|8| d:In:0,110:64:Zero ld:In:0,30:1:Zero ud:In:0,50:1:One en:In:0,70:1:One clk:In:0,80:1:Unknown clr:In:0,20:1:Zero q:Out:140,110:64:Unknown carry:Out:140,50:1:Unknown
|Shift Register|length=3;width=64|8| si:In:0,30:64:Unknown sh:In:0,40:1:One clk:In:0,50:1:Unknown clr:In:0,20:1:Zero ld:In:0,60:1:Zero d0:In:0,80:64:Zero d1:In:0,100:64:Zero d2:In:0,120:64:Zero q0:Out:100,80:64:Unknown q1:Out:100,100:64:Unknown q2:Out:100,120:64:Unknown
|Shift Register|length=1|8| si:In:0,30:1:Unknown sh:In:0,40:1:One clk:In:0,50:1:Unknown clr:In:0,20:1:Zero ld:In:0,60:1:Zero d0:In:0,80:1:Zero q0:Out:100,80:1:Unknown
|Shift Register|length=64;parallel=false;width=2|8| si:In:0,30:2:Unknown sh:In:0,40:1:One clk:In:0,50:1:Unknown clr:In:0,20:1:Zero q:Out:100,80:2:Unknown
|Shift Register||8| si:In:0,30:1:Unknown sh:In:0,40:1:One clk:In:0,50:1:Unknown clr:In:0,20:1:Zero ld:In:0,60:1:Zero d0:In:0,80:1:Zero d1:In:0,100:1:Zero d2:In:0,120:1:Zero d3:In:0,140:1:Zero d4:In:0,160:1:Zero d5:In:0,180:1:Zero d6:In:0,200:1:Zero d7:In:0,220:1:Zero q0:Out:100,80:1:Unknown q1:Out:100,100:1:Unknown q2:Out:100,120:1:Unknown q3:Out:100,140:1:Unknown q4:Out:100,160:1:Unknown q5:Out:100,180:1:Unknown q6:Out:100,200:1:Unknown q7:Out:100,220:1:Unknown
|ROM||10| a:In:0,10:8:Unknown out:Out:240,60:8:Unknown
|ROM|addrWidth=24;dataWidth=64|10| a:In:0,10:24:Unknown out:Out:240,60:64:Unknown
|ROM|addrWidth=1;dataWidth=1|10| a:In:0,10:1:Unknown out:Out:240,60:1:Unknown
|RAM||10| a:In:0,10:8:Unknown d:In:0,90:8:Unknown we:In:0,50:1:Zero clk:In:0,70:1:Unknown out:Out:240,90:8:Unknown
|RAM|addrWidth=1;dataWidth=64;facing=up|10| a:In:0,10:1:Unknown d:In:0,90:64:Unknown we:In:0,50:1:Zero clk:In:0,70:1:Unknown out:Out:240,90:64:Unknown
|Splitter||-| c:Both:0,0:2:Unknown end:Both:20,-20:1:Unknown end:Both:20,-10:1:Unknown
|Splitter|appear=left;facing=east;incoming=8;fanout=3;spacing=2|-| c:Both:0,0:8:Unknown end:Both:20,-60:3:Unknown end:Both:20,-40:3:Unknown end:Both:20,-20:2:Unknown
|Splitter|appear=left;facing=west;incoming=8;fanout=3;spacing=2|-| c:Both:0,0:8:Unknown end:Both:-20,20:3:Unknown end:Both:-20,40:3:Unknown end:Both:-20,60:2:Unknown
|Splitter|appear=left;facing=north;incoming=8;fanout=3;spacing=2|-| c:Both:0,0:8:Unknown end:Both:-20,-20:3:Unknown end:Both:-40,-20:3:Unknown end:Both:-60,-20:2:Unknown
|Splitter|appear=left;facing=south;incoming=8;fanout=3;spacing=2|-| c:Both:0,0:8:Unknown end:Both:60,20:3:Unknown end:Both:40,20:3:Unknown end:Both:20,20:2:Unknown
|Splitter|appear=right;facing=east;incoming=8;fanout=3;spacing=2|-| c:Both:0,0:8:Unknown end:Both:20,20:3:Unknown end:Both:20,40:3:Unknown end:Both:20,60:2:Unknown
|Splitter|appear=right;facing=west;incoming=8;fanout=3;spacing=2|-| c:Both:0,0:8:Unknown end:Both:-20,-60:3:Unknown end:Both:-20,-40:3:Unknown end:Both:-20,-20:2:Unknown
|Splitter|appear=right;facing=north;incoming=8;fanout=3;spacing=2|-| c:Both:0,0:8:Unknown end:Both:60,-20:3:Unknown end:Both:40,-20:3:Unknown end:Both:20,-20:2:Unknown
|Splitter|appear=right;facing=south;incoming=8;fanout=3;spacing=2|-| c:Both:0,0:8:Unknown end:Both:-20,20:3:Unknown end:Both:-40,20:3:Unknown end:Both:-60,20:2:Unknown
|Splitter|appear=center;facing=east;incoming=8;fanout=3;spacing=2|-| c:Both:0,0:8:Unknown end:Both:20,-20:3:Unknown end:Both:20,0:3:Unknown end:Both:20,20:2:Unknown
|Splitter|appear=center;facing=west;incoming=8;fanout=3;spacing=2|-| c:Both:0,0:8:Unknown end:Both:-20,-20:3:Unknown end:Both:-20,0:3:Unknown end:Both:-20,20:2:Unknown
|Splitter|appear=center;facing=north;incoming=8;fanout=3;spacing=2|-| c:Both:0,0:8:Unknown end:Both:20,-20:3:Unknown end:Both:0,-20:3:Unknown end:Both:-20,-20:2:Unknown
|Splitter|appear=center;facing=south;incoming=8;fanout=3;spacing=2|-| c:Both:0,0:8:Unknown end:Both:20,20:3:Unknown end:Both:0,20:3:Unknown end:Both:-20,20:2:Unknown
|Splitter|appear=legacy;facing=east;incoming=8;fanout=3;spacing=2|-| c:Both:0,0:8:Unknown end:Both:20,-20:3:Unknown end:Both:20,0:3:Unknown end:Both:20,20:2:Unknown
|Splitter|appear=legacy;facing=west;incoming=8;fanout=3;spacing=2|-| c:Both:0,0:8:Unknown end:Both:-20,-20:3:Unknown end:Both:-20,0:3:Unknown end:Both:-20,20:2:Unknown
|Splitter|appear=legacy;facing=north;incoming=8;fanout=3;spacing=2|-| c:Both:0,0:8:Unknown end:Both:20,-20:3:Unknown end:Both:0,-20:3:Unknown end:Both:-20,-20:2:Unknown
|Splitter|appear=legacy;facing=south;incoming=8;fanout=3;spacing=2|-| c:Both:0,0:8:Unknown end:Both:20,20:3:Unknown end:Both:0,20:3:Unknown end:Both:-20,20:2:Unknown
|Splitter|appear=center;facing=east;incoming=4;fanout=4|-| c:Both:0,0:4:Unknown end:Both:20,-20:1:Unknown end:Both:20,-10:1:Unknown end:Both:20,0:1:Unknown end:Both:20,10:1:Unknown
|Splitter|appear=center;facing=west;incoming=4;fanout=4|-| c:Both:0,0:4:Unknown end:Both:-20,-20:1:Unknown end:Both:-20,-10:1:Unknown end:Both:-20,0:1:Unknown end:Both:-20,10:1:Unknown
|Splitter|appear=center;facing=north;incoming=4;fanout=4|-| c:Both:0,0:4:Unknown end:Both:10,-20:1:Unknown end:Both:0,-20:1:Unknown end:Both:-10,-20:1:Unknown end:Both:-20,-20:1:Unknown
|Splitter|appear=center;facing=south;incoming=4;fanout=4|-| c:Both:0,0:4:Unknown end:Both:10,20:1:Unknown end:Both:0,20:1:Unknown end:Both:-10,20:1:Unknown end:Both:-20,20:1:Unknown
|Splitter|incoming=2;fanout=5;appear=right|-| c:Both:0,0:2:Unknown end:Both:20,10:1:Unknown end:Both:20,20:1:Unknown
|Splitter|incoming=64;fanout=1;spacing=9|-| c:Both:0,0:64:Unknown end:Both:20,-90:64:Unknown
|Splitter|incoming=7;fanout=4|-| c:Both:0,0:7:Unknown end:Both:20,-40:2:Unknown end:Both:20,-30:2:Unknown end:Both:20,-20:2:Unknown end:Both:20,-10:1:Unknown
|Splitter|incoming=1;fanout=64;spacing=9|-| c:Both:0,0:1:Unknown end:Both:20,-5760:1:Unknown
|Splitter|incoming=4;fanout=2;bit0=1;bit1=0;bit2=none;bit3=1|-| c:Both:0,0:4:Unknown end:Both:20,-20:1:Unknown end:Both:20,-10:2:Unknown
|Splitter|incoming=3;fanout=3;bit0=2;bit1=2;bit2=2;appear=center;facing=south|-| c:Both:0,0:3:Unknown end:Both:-10,20:3:Unknown
|Splitter|incoming=2;fanout=2;bit0=none;bit1=none|-| c:Both:0,0:2:Unknown
|Probe|facing=up|-|
|LED|facing=up|-|
|Text|facing=up|-|
|Hex Digit Display|facing=up|-|
|7-Segment Display|facing=up|-|";
